//! Names of shares, files and directories.

use crate::made::{a_part, a_share, fault, fault_of, times};
use std::alloc::Global;
use std::process::Abort;
use sx_names::{NameFault, NameRule, Part, ShareName};

fn share_row(rt: &impl Abort, alloc: Global, bytes: &[u8], broken: Option<NameFault>) {
    let read = ShareName::read(alloc, bytes);
    if let Ok(name) = &read {
        assert_eq!(rt; name.bytes(), bytes);
    }
    assert_eq!(rt; fault_of(rt, read), broken, "{bytes:?}");
    assert_eq!(rt; ShareName::fault(bytes), broken, "{bytes:?}");
}

/// Names of shares with the first rule that they break, from the public rules on naming shares.
#[test]
fn names_of_shares(rt: HostRuntime) {
    let cases: [(&[u8], Option<NameFault>); 16] = [
        (b"abc", None),
        (b"a-b", None),
        (b"0-0-0", None),
        (b"ab", fault(NameRule::Short, 0, 0)),
        (b"", fault(NameRule::Short, 0, 0)),
        (b"a--b", fault(NameRule::Hyphens, 0, 2)),
        (b"ab---c", fault(NameRule::Hyphens, 0, 3)),
        (b"-ab", fault(NameRule::Edge, 0, 0)),
        (b"ab-", fault(NameRule::Edge, 0, 2)),
        (b"-a-", fault(NameRule::Edge, 0, 0)),
        (b"--A", fault(NameRule::Char, 0, 2)),
        (b"Abc", fault(NameRule::Char, 0, 0)),
        (b"a_b", fault(NameRule::Char, 0, 1)),
        (b"a.b", fault(NameRule::Char, 0, 1)),
        (b"a\0b", fault(NameRule::Char, 0, 1)),
        (b"a\xc3\xa4b", fault(NameRule::Char, 0, 1)),
    ];
    for (bytes, broken) in cases.iter() {
        share_row(&rt, rt.alloc(), *bytes, *broken);
    }
}

fn share_of_letters(rt: &impl Abort, alloc: Global, count: usize, broken: Option<NameFault>) {
    let letters = times(rt, alloc, b'a', count);
    share_row(rt, alloc, letters.as_slice(), broken);
}

/// Names of shares have 3 to 63 bytes.
#[test]
fn lengths_of_shares(rt: HostRuntime) {
    for (count, broken) in [
        (2, fault(NameRule::Short, 0, 0)),
        (3, None),
        (63, None),
        (64, fault(NameRule::Long, 0, 63)),
    ] {
        share_of_letters(&rt, rt.alloc(), count, broken);
    }
}

fn part_row(rt: &impl Abort, alloc: Global, bytes: &[u8], broken: Option<NameFault>) {
    let read = Part::read(alloc, bytes);
    if let Ok(name) = &read {
        assert_eq!(rt; name.kept(), bytes);
    }
    assert_eq!(rt; fault_of(rt, read), broken, "{bytes:?}");
    assert_eq!(rt; Part::fault(1, bytes), broken, "{bytes:?}");
}

/// Names of files and directories with the first rule that they break, from the public rules on naming them.
#[test]
fn names_of_files(rt: HostRuntime) {
    let cases: [(&[u8], Option<NameFault>); 24] = [
        (b"a", None),
        (b".a", None),
        (b"a.txt", None),
        (b" a", None),
        ("Stra\u{df}e".as_bytes(), None),
        (b"...a", None),
        (b"", fault(NameRule::Empty, 1, 0)),
        (b"a.", fault(NameRule::Tail, 1, 1)),
        (b"a ", fault(NameRule::Tail, 1, 1)),
        (b".", fault(NameRule::Dot, 1, 0)),
        (b"..", fault(NameRule::Dot, 1, 0)),
        (b"...", fault(NameRule::Tail, 1, 2)),
        (b"a/b", fault(NameRule::Char, 1, 1)),
        (b"a\\b", fault(NameRule::Char, 1, 1)),
        (b"a:b", fault(NameRule::Char, 1, 1)),
        (b"a|b", fault(NameRule::Char, 1, 1)),
        (b"a\0b", fault(NameRule::Char, 1, 1)),
        (b"a\x1fb", fault(NameRule::Char, 1, 1)),
        (b"a\x7fb", fault(NameRule::Char, 1, 1)),
        // the place is that of a byte, and the earlier rule is told
        ("\u{e4}?.".as_bytes(), fault(NameRule::Char, 1, 2)),
        // a byte that no UTF-8 has, and a character that isn't whole
        (b"a\xff", fault(NameRule::Utf8, 1, 1)),
        (b"\xc3\xa4b\xe2\x82", fault(NameRule::Utf8, 1, 3)),
        (b"?\xff", fault(NameRule::Utf8, 1, 1)),
        // half of a pair of surrogates
        (b"a\xed\xa0\x80", fault(NameRule::Utf8, 1, 1)),
    ];
    for (bytes, broken) in cases.iter() {
        part_row(&rt, rt.alloc(), *bytes, *broken);
    }
}

fn part_of_letters(rt: &impl Abort, alloc: Global, count: usize, broken: Option<NameFault>) {
    let letters = times(rt, alloc, b'a', count);
    part_row(rt, alloc, letters.as_slice(), broken);
}

/// Names of files have at most 255 characters.
#[test]
fn lengths_of_files(rt: HostRuntime) {
    for (count, broken) in [(255, None), (256, fault(NameRule::Long, 1, 255))] {
        part_of_letters(&rt, rt.alloc(), count, broken);
    }
}

fn umlauts(rt: &impl Abort, alloc: Global, count: usize) -> Vec<u8> {
    let mut bytes = Vec::new(alloc);
    for _ in 0..count {
        if bytes.extend_from_slice(b"\xc3\xa4".as_slice()).is_err() {
            panic!(rt; "no memory");
        }
    }
    bytes
}

fn part_of_umlauts(rt: &impl Abort, alloc: Global, count: usize, broken: Option<NameFault>) {
    let bytes = umlauts(rt, alloc, count);
    part_row(rt, alloc, &bytes, broken);
}

/// 255 characters of two bytes each are a name, 256 are none: characters are counted, and not bytes.
#[test]
fn characters_are_counted(rt: HostRuntime) {
    part_of_umlauts(&rt, rt.alloc(), 255, None);
    part_of_umlauts(&rt, rt.alloc(), 256, fault(NameRule::Long, 1, 510));
}

fn same_row(rt: &impl Abort, alloc: Global, one: &str, other: &str, same: bool) {
    let a = a_part(rt, alloc, one.as_bytes());
    let b = a_part(rt, alloc, other.as_bytes());
    assert_eq!(rt; a.same(&b), same, "{one} and {other}");
    assert_eq!(rt; a.folded().same(b.folded()), same);
}

/// Names that are the same without case, by Unicode's full case folding, and names that aren't.
#[test]
fn names_without_case(rt: HostRuntime) {
    let cases = [
        ("a.TXT", "A.txt", true),
        ("Stra\u{df}e", "STRASSE", true),
        ("\u{3a3}", "\u{3c2}", true),
        ("\u{c4}", "\u{e4}", true),
        // I with a dot above is i and a dot above, the ligature is its letters, and small Cherokee letters are the
        // capital ones
        ("\u{130}", "i\u{307}", true),
        ("\u{130}", "i", false),
        ("\u{fb03}", "FFI", true),
        ("\u{3a3}", "\u{3c3}", true),
        ("\u{ab70}", "\u{13a0}", true),
        ("\u{13f8}", "\u{13f0}", true),
        ("a", "b", false),
        // an umlaut as one character and as two: names aren't normalized
        ("\u{e4}", "a\u{308}", false),
        // a capital I and a small i without a dot are the same in the Turkic folding alone
        ("I", "\u{131}", false),
    ];
    for (one, other, same) in cases.iter() {
        same_row(&rt, rt.alloc(), *one, *other, *same);
    }
}

fn share_is_copied(rt: &impl Abort, share: &ShareName) -> bool {
    match share.copy() {
        Ok(again) => again.same(share),
        Err(_) => panic!(rt; "no memory"),
    }
}

fn part_is_copied(rt: &impl Abort, part: &Part) -> bool {
    match part.copy() {
        Ok(again) => again.same(part),
        Err(_) => panic!(rt; "no memory"),
    }
}

/// A share's name and a file's, with memory for each copy.
#[test]
fn names_are_copied(rt: HostRuntime) {
    let share = a_share(&rt, rt.alloc(), b"files");
    assert!(rt; share_is_copied(&rt, &share));
    let part = a_part(&rt, rt.alloc(), b"a.txt");
    assert!(rt; part_is_copied(&rt, &part));
}
