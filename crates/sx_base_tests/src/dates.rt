//! Worked examples of header dates, computed by Python's `datetime`.
use sx_base::{print_date, read_date, take_date};
use sx_text::Unread;

#[test]
fn prints_and_reads_dates(rt: HostRuntime) {
    let printed: [(u64, &[u8]); 6] = [
        (0, b"Thu, 01 Jan 1970 00:00:00 GMT"),
        (9_466_847_999_999_999, b"Fri, 31 Dec 1999 23:59:59 GMT"),
        (16_409_952_000_000_000, b"Sat, 01 Jan 2022 00:00:00 GMT"),
        (17_092_100_967_890_123, b"Thu, 29 Feb 2024 12:34:56 GMT"),
        (41_075_424_000_000_000, b"Mon, 01 Mar 2100 00:00:00 GMT"),
        (2_500_000_004_294_967_295, b"Tue, 08 Mar 9892 12:33:49 GMT"),
    ];
    for (at, text) in printed.iter() {
        assert!(rt; *at <= 2_500_000_004_294_967_295);
        let date = print_date(*at);
        assert_eq!(rt; date.as_slice(), *text);
        assert_eq!(rt; read_date(*text), Some(*at / 10_000_000 * 10_000_000));
    }
}

/// Dates in each of the three formats, and texts that are none.
#[test]
fn reads_dates(rt: HostRuntime) {
    let read: [(&[u8], Option<u64>); 9] = [
        (
            b"Sun, 06 Nov 1994 08:49:37 GMT",
            Some(7_841_117_770_000_000),
        ),
        (
            b"Sunday, 06-Nov-94 08:49:37 GMT",
            Some(7_841_117_770_000_000),
        ),
        (b"Sun Nov  6 08:49:37 1994", Some(7_841_117_770_000_000)),
        (b"Sun Nov 06 08:49:37 1994", Some(7_841_117_770_000_000)),
        (b"Mon, 06 Nov 1994 08:49:37 GMT", None),
        (b"Sun, 06 Nov 1994 08:49:37 UTC", None),
        (b"Sun, 06 Nov 1994 08:49:37 GMT ", None),
        (b"Mon, 29 Feb 2100 00:00:00 GMT", None),
        (b"", None),
    ];
    for (text, at) in read.iter() {
        assert_eq!(rt; read_date(*text), *at);
    }
}

/// A header date at the front of longer bytes: the moment, and how many bytes are left.
#[test]
fn takes_dates_from_the_front(rt: HostRuntime) {
    let read: [(&[u8], u64, usize); 4] = [
        (
            b"Sun, 06 Nov 1994 08:49:37 GMT</L",
            7_841_117_770_000_000,
            3,
        ),
        (b"Thu, 01 Jan 1970 00:00:00 GMT", 0, 0),
        (b"Tue, 29 Feb 2000 23:59:59 GMT<", 9_518_687_990_000_000, 1),
        (
            b"Tue, 08 Mar 9892 12:33:49 GMT",
            2_500_000_004_290_000_000,
            0,
        ),
    ];
    for (text, at, left) in read.iter() {
        assert_eq!(rt;
            take_date(*text).map(|x| (x.0, x.1.len())),
            Ok((*at, *left))
        );
    }
}

/// Bytes that begin with no header date, and how many are left at the fault, by all dates of Python's `datetime`.
#[test]
fn tells_the_place_of_a_fault_in_a_date(rt: HostRuntime) {
    let unread: [(&[u8], usize); 16] = [
        (b"", 0),
        (b"Sut, 06", 5),
        (b"sun, 06 Nov 1994", 16),
        (b"Sunday, 06-Nov-94 08:49:37 GMT", 27),
        (b"Mon, 32 Nov", 5),
        (b"Wed, 31 Jun", 1),
        (b"Sun, 30 Feb 2000", 8),
        (b"Mon, 06 Nov 1994 08:49:37 GMT", 14),
        (b"Tue, 29 Feb 2001", 1),
        (b"Wed, 01 Jan 1969", 2),
        (b"Wed, 09 Mar 9892", 2),
        (b"Sun, 31 Jan 1971 ", 0),
        (b"Sun, 06 Nov 1994 24:", 2),
        (b"Tue, 08 Mar 9892 12:33:50 GMT", 6),
        (b"Sun, 06 Nov 1994 08:49:60 GMT", 6),
        (b"Sun, 06 Nov 1994 08:49:37 UTC", 3),
    ];
    for (text, left) in unread.iter() {
        let found = take_date(*text).map(|x| (x.0, x.1.len()));
        assert_eq!(rt; found, Err(Unread { left: *left }));
    }
}
