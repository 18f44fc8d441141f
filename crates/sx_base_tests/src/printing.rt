//! Worked examples of what is printed. Each text is written out by hand.
use std::alloc::Global;
use std::process::Abort;
use sx_base::{Failed, Fragment, MemSink, Sink, print};

/// Whether fragments are printed as this text, to a sink without a fault.
fn is_printed(alloc: Global, fragments: &[Fragment], text: &[u8]) -> bool {
    let mut sink = MemSink::new(alloc, Vec::new(alloc));
    print(&mut sink, fragments).is_ok() && sink.bytes() == text
}

/// A fragment of each kind, with the ends of the numbers.
#[test]
fn prints_each_kind_of_fragment(rt: HostRuntime) {
    let cases: [(Fragment, &[u8]); 7] = [
        (Fragment::Text(b""), b""),
        (Fragment::Text(b"one\n"), b"one\n"),
        (Fragment::Decimal(0), b"0"),
        (Fragment::Decimal(1_050), b"1050"),
        (Fragment::Decimal(u64::MAX), b"18446744073709551615"),
        (Fragment::Hex(b""), b""),
        (Fragment::Hex(&[0x00, 0x0a, 0xf0, 0xff]), b"000af0ff"),
    ];
    for (fragment, text) in cases.iter() {
        assert!(rt; is_printed(rt.alloc(), &[*fragment], *text));
    }
    let line = [
        Fragment::Text(b"wrote "),
        Fragment::Decimal(3),
        Fragment::Text(b" "),
        Fragment::Hex(b"abc"),
    ];
    assert!(rt; is_printed(rt.alloc(), &line, b"wrote 3 616263"));
}

/// How many bytes of digits of so many bytes are printed to a sink whose second put fails.
fn printed_in_one_put(rt: &impl Abort, alloc: Global, count: usize) -> Option<usize> {
    let (Ok(failing), Ok(bytes)) = (vec![in alloc; 1u64], vec![in alloc; 7u8; count]) else {
        panic!(rt; "no memory")
    };
    let mut sink = MemSink::new(alloc, failing);
    match print(&mut sink, &[Fragment::Text(b"0x"), Fragment::Hex(&bytes)]) {
        Ok(()) => Some(sink.bytes().len()),
        Err(Failed) => None,
    }
}

/// A text of 4,096 bytes is one put, and a longer one is more.
#[test]
fn prints_a_short_text_at_once(rt: HostRuntime) {
    assert_eq!(rt; printed_in_one_put(&rt, rt.alloc(), 2_047), Some(4_096));
    assert_eq!(rt; printed_in_one_put(&rt, rt.alloc(), 2_048), None);
}
