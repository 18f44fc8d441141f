//! Worked examples: which number is read, or how many bytes are left where reading stops.
use std::alloc::Global;
use std::process::Abort;
use sx_text::{
    Fault, Unread, digits_behind, escaped_text, hex_digits_behind, literal, next_is, number,
};

/// A number from 5 to 120 and a `<` behind it: the number and how many bytes are left, or how many are left at the
/// fault.
#[test]
fn reads_numbers_within_limits(rt: HostRuntime) {
    let read: [(&[u8], u64, usize); 5] = [
        (b"5<", 5, 0),
        (b"9<<", 9, 1),
        (b"10<a", 10, 1),
        (b"99<", 99, 0),
        (b"120<abc", 120, 3),
    ];
    for (text, value, left) in read.iter() {
        let found = number(*text, b'<', 5, 120).map(|x| (x.0, x.1.len()));
        assert_eq!(rt; found, Ok((*value, *left)));
    }
    let unread: [(&[u8], usize); 11] = [
        (b"", 0),
        (b"1", 0),
        (b"5", 0),
        (b"4<", 1),
        (b"1<", 1),
        (b"0<", 2),
        (b"05<", 3),
        (b"121<", 2),
        (b"130<", 2),
        (b"1200<", 2),
        (b"12a", 1),
    ];
    for (text, left) in unread.iter() {
        let found = number(*text, b'<', 5, 120).map(|x| (x.0, x.1.len()));
        assert_eq!(rt; found, Err(Unread { left: *left }));
    }
}

/// A literal, and two digits from 1 to 31 behind it.
#[test]
fn reads_digits_within_limits(rt: HostRuntime) {
    let read: [(&[u8], u64, usize); 3] = [(b"-01", 1, 0), (b"-10T", 10, 1), (b"-31-0", 31, 2)];
    for (text, value, left) in read.iter() {
        let found = digits_behind(*text, b"-", 1, 1, 31).map(|x| (x.0, x.1.len()));
        assert_eq!(rt; found, Ok((*value, *left)));
    }
    let unread: [(&[u8], usize); 7] = [
        (b"", 0),
        (b"01", 2),
        (b"-", 0),
        (b"-3", 0),
        (b"-00", 1),
        (b"-32", 1),
        (b"-41", 2),
    ];
    for (text, left) in unread.iter() {
        let found = digits_behind(*text, b"-", 1, 1, 31).map(|x| (x.0, x.1.len()));
        assert_eq!(rt; found, Err(Unread { left: *left }));
    }
}

/// A `0x`, and sixteen hexadecimal digits with letters in upper case behind it.
#[test]
fn reads_hexadecimal_digits(rt: HostRuntime) {
    let read: [(&[u8], u64, usize); 3] = [
        (b"0x000000000000002A", 42, 0),
        (b"0x00000000DEADBEEF\"", 3_735_928_559, 1),
        (b"0xFFFFFFFFFFFFFFFFF", 0xFFFF_FFFF_FFFF_FFFF, 1),
    ];
    for (text, value, left) in read.iter() {
        let found = hex_digits_behind(*text, b"0x", 15).map(|x| (x.0, x.1.len()));
        assert_eq!(rt; found, Ok((*value, *left)));
    }
    let unread: [(&[u8], usize); 5] = [
        (b"", 0),
        (b"0X", 1),
        (b"0x00000000000002A", 0),
        (b"0x00000000deadbeef", 8),
        (b"0x00:0", 2),
    ];
    for (text, left) in unread.iter() {
        let found = hex_digits_behind(*text, b"0x", 15).map(|x| (x.0, x.1.len()));
        assert_eq!(rt; found, Err(Unread { left: *left }));
    }
}

/// Whether a byte is next, where there is one.
#[test]
fn tells_the_next_byte(rt: HostRuntime) {
    let empty: &[u8] = b"";
    assert_eq!(rt; next_is(b"File>", b'F'), Ok(true));
    assert_eq!(rt; next_is(b"Directory>", b'F'), Ok(false));
    assert_eq!(rt; next_is(empty, b'F'), Err(Unread { left: 0 }));
}

/// A literal is taken from the front, or is left from its first byte that differs.
#[test]
fn takes_literals(rt: HostRuntime) {
    let cases: [(&[u8], Result<usize, Unread>); 5] = [
        (b"<Range>", Ok(0)),
        (b"<Range><", Ok(1)),
        (b"<Ran", Err(Unread { left: 0 })),
        (b"<Rank>", Err(Unread { left: 2 })),
        (b"Range>", Err(Unread { left: 6 })),
    ];
    for (text, answer) in cases.iter() {
        assert_eq!(rt; literal(*text, b"<Range>").map(|rest| rest.len()), *answer);
    }
}

fn escaped(rt: &impl Abort, alloc: Global, text: &[u8], bytes: &[u8], left: usize) {
    match escaped_text(alloc, text) {
        Ok((kept, rest)) => assert!(rt; kept.as_slice() == bytes && rest.len() == left),
        Err(_) => panic!(rt; "unread"),
    }
}

fn stops(rt: &impl Abort, alloc: Global, text: &[u8], left: usize) {
    match escaped_text(alloc, text) {
        Ok(_) => panic!(rt; "read"),
        Err(fault) => assert_eq!(rt; fault, Fault::Unread { left }),
    }
}

/// Texts with escapes: the bytes for which they stand, and how many bytes are left behind the `<`.
#[test]
fn reads_escaped_texts(rt: HostRuntime) {
    let read: [(&[u8], &[u8], usize); 6] = [
        (b"<", b"", 0),
        (b"a.txt</Name>", b"a.txt", 6),
        (b"a&amp;b&lt;&gt;<", b"a&b<>", 0),
        (b"caf\xc3\xa9<", b"caf\xc3\xa9", 0),
        (
            b"\xe2\x82\xac\xf0\x9f\x98\x80<<",
            b"\xe2\x82\xac\xf0\x9f\x98\x80",
            1,
        ),
        (
            b"\xed\x9f\xbf\xf4\x8f\xbf\xbf<",
            b"\xed\x9f\xbf\xf4\x8f\xbf\xbf",
            0,
        ),
    ];
    for (text, bytes, left) in read.iter() {
        escaped(&rt, rt.alloc(), *text, *bytes, *left);
    }
}

/// How many bytes are left where a text stops.
#[test]
fn stops_in_escaped_texts(rt: HostRuntime) {
    let unread: [(&[u8], usize); 12] = [
        (b"", 0),
        (b"ab", 0),
        (b"a>b<", 3),
        (b"&am<", 1),
        (b"&#38;<", 5),
        (b"\xc3(<", 2),
        (b"\xc1\xbf<", 3),
        (b"\xe0\x9f\xbf<", 3),
        (b"\xed\xa0\x80<", 3),
        (b"\xf0\x8f\xbf<", 3),
        (b"\xf4\x90\x80<", 3),
        (b"\xff<", 2),
    ];
    for (text, left) in unread.iter() {
        stops(&rt, rt.alloc(), *text, *left);
    }
}
