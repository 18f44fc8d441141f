//! What views and copies show after their file was changed.
use crate::files::Step::{Clear, Resize, Update};
use crate::files::{sevens, take};
use std::alloc::Global;
use std::process::Abort;
use sx_extent::{Piece, Ranges, View};

/// So many bytes of value 9.
fn nines(rt: &impl Abort, alloc: Global, count: u64) -> Vec<u8> {
    assert!(rt; count <= 4_096);
    match vec![in alloc; 9u8; count as usize] {
        Ok(bytes) => bytes,
        Err(_) => panic!(rt; "no memory"),
    }
}

/// Says that bytes are 7 but for zeros from one place to before another.
fn compare(rt: &impl Abort, bytes: &[u8], from: usize, end: usize) {
    for (k, byte) in bytes.iter().enumerate() {
        let wanted = if from <= k && k < end { 0 } else { 7 };
        assert_eq!(rt; *byte, wanted, "at {k}");
    }
}

/// Says that a file of at most 4,096 bytes is 7 but for zeros from one place to before another.
fn compare_file(rt: &impl Abort, alloc: Global, file: &Ranges, from: usize, end: usize) {
    let mut bytes = nines(rt, alloc, file.length());
    assert!(rt; bytes.len() as u64 <= file.length());
    file.read_into(0, &mut bytes);
    compare(rt, &bytes, from, end);
}

/// Says that a view of at most 4,096 bytes is 7 throughout.
fn compare_view(rt: &impl Abort, alloc: Global, view: &View) {
    let mut bytes = nines(rt, alloc, view.length());
    assert!(rt; bytes.len() as u64 <= view.length());
    view.read_into(0, &mut bytes);
    compare(rt, &bytes, 0, 0);
}

/// A file of 2,048 bytes of value 7.
fn full(rt: &impl Abort, alloc: Global) -> Ranges {
    let mut file = Ranges::new(alloc, 2_048);
    take(rt, alloc, &mut file, Update(0, 2_048));
    file
}

/// Clears a part of a file of 2,048 bytes, and cuts its end off and puts it back.
fn change(rt: &impl Abort, alloc: Global, file: &mut Ranges) {
    take(rt, alloc, file, Clear(100, 1_200));
    compare_file(rt, alloc, file, 100, 1_200);
    take(rt, alloc, file, Resize(700));
    take(rt, alloc, file, Resize(2_048));
    compare_file(rt, alloc, file, 100, 2_048);
}

/// The bytes of a file from 50 to before 2,000.
fn view_of(rt: &impl Abort, file: &Ranges) -> View {
    assert!(rt; file.length() >= 2_000);
    match file.view(50, 2_000) {
        Ok(view) => view,
        Err(_) => panic!(rt; "no memory"),
    }
}

#[test]
fn a_view_stays(rt: HostRuntime) {
    let mut file = full(&rt, rt.alloc());
    let view = view_of(&rt, &file);
    change(&rt, rt.alloc(), &mut file);
    assert_eq!(rt; view.length(), 1_950);
    compare_view(&rt, rt.alloc(), &view);
}

/// An equal file.
fn copy_of(rt: &impl Abort, file: &Ranges) -> Ranges {
    match file.copy_shared() {
        Ok(copy) => copy,
        Err(_) => panic!(rt; "no memory"),
    }
}

#[test]
fn a_copy_stays(rt: HostRuntime) {
    let mut file = full(&rt, rt.alloc());
    let copy = copy_of(&rt, &file);
    change(&rt, rt.alloc(), &mut file);
    compare_file(&rt, rt.alloc(), &copy, 0, 0);
}

/// An equal piece.
fn piece_again(rt: &impl Abort, piece: &Piece) -> Piece {
    match piece.copy() {
        Ok(copy) => copy,
        Err(_) => panic!(rt; "no memory"),
    }
}

#[test]
fn a_piece_is_copied(rt: HostRuntime) {
    let piece = piece_again(&rt, &sevens(&rt, rt.alloc(), 3));
    assert_eq!(rt; piece.bytes().len(), 3);
    compare(&rt, piece.bytes(), 0, 0);
}
