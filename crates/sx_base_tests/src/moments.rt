//! Worked examples of the texts of moments, computed by Python's `datetime`.
use sx_base::{BadMoment, print_moment, read_moment, take_moment};
use sx_text::Unread;

const MOMENTS: [(u64, &[u8]); 12] = [
    (0, b"1970-01-01T00:00:00.0000000Z"),
    (1, b"1970-01-01T00:00:00.0000001Z"),
    (315_359_999_999_999, b"1970-12-31T23:59:59.9999999Z"),
    (9_466_847_999_999_999, b"1999-12-31T23:59:59.9999999Z"),
    (9_517_824_000_000_000, b"2000-02-29T00:00:00.0000000Z"),
    (9_518_688_000_000_000, b"2000-03-01T00:00:00.0000000Z"),
    (16_409_952_000_000_000, b"2022-01-01T00:00:00.0000000Z"),
    (17_092_100_967_890_123, b"2024-02-29T12:34:56.7890123Z"),
    (41_075_423_999_999_999, b"2100-02-28T23:59:59.9999999Z"),
    (41_075_424_000_000_000, b"2100-03-01T00:00:00.0000000Z"),
    (135_745_852_280_000_090, b"2400-02-29T06:07:08.0000090Z"),
    (2_500_000_004_294_967_295, b"9892-03-08T12:33:49.4967295Z"),
];

#[test]
fn prints_and_reads_moments(rt: HostRuntime) {
    for (at, text) in MOMENTS.iter() {
        assert!(rt; *at <= 2_500_000_004_294_967_295);
        let printed = print_moment(*at);
        assert_eq!(rt; printed.as_slice(), *text);
        assert_eq!(rt; read_moment(*text), Ok(*at));
    }
}

/// Bytes that are no text of a moment, and how many of them begin one.
#[test]
fn tells_the_place_of_a_fault_in_a_moment(rt: HostRuntime) {
    let cases: [(&[u8], u64); 28] = [
        (b"", 0),
        (b"2", 1),
        (b"3", 1),
        (b"0", 0),
        (b"1899", 1),
        (b"1969", 2),
        (b"9893", 3),
        (b"99", 1),
        (b"2022", 4),
        (b"2022/", 4),
        (b"2022-13", 6),
        (b"2022-00", 6),
        (b"2022-2", 5),
        (b"2022-01-32", 9),
        (b"2022-04-31", 9),
        (b"2023-02-29T", 9),
        (b"2100-02-29T", 9),
        (b"2000-02-29T", 11),
        (b"2024-02-30", 8),
        (b"2024-02-29 00", 10),
        (b"2024-02-29T24", 12),
        (b"2024-02-29T23:60", 14),
        (b"2024-02-29T23:59:60", 17),
        (b"2024-02-29T23:59:59.999999Z", 26),
        (b"2024-02-29T23:59:59.9999999z", 27),
        (b"2024-02-29T23:59:59.9999999Z ", 28),
        (b"9892-03-08T12:33:49.4967296Z", 26),
        (b"9892-04", 6),
    ];
    for (text, at) in cases.iter() {
        assert_eq!(rt; read_moment(*text), Err(BadMoment { at: *at }));
    }
}

/// A moment at the front of longer bytes, and bytes that begin with none.
#[test]
fn takes_moments_from_the_front(rt: HostRuntime) {
    let found = take_moment(b"2024-02-29T12:34:56.7890123Z</OpenTime>").map(|x| (x.0, x.1.len()));
    assert_eq!(rt; found, Ok((17_092_100_967_890_123, 11)));
    let found = take_moment(b"2023-02-29T12:34:56.7890123Z").map(|x| (x.0, x.1.len()));
    assert_eq!(rt; found, Err(Unread { left: 19 }));
}
