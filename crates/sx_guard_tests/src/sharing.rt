//! Share modes: an open against a new one, and which handle is named.
use std::alloc::Global;
use std::process::Abort;
use sx_guard::{Access, HandleId, Mode, Sharing};

const A: HandleId = HandleId {
    session: 1,
    index: 1,
};

const B: HandleId = HandleId {
    session: 1,
    index: 2,
};

const C: HandleId = HandleId {
    session: 2,
    index: 1,
};

/// The rights of these letters, `r`, `w` and `d`.
fn access(letters: &str) -> Access {
    Access {
        read: letters.contains('r'),
        write: letters.contains('w'),
        delete: letters.contains('d'),
    }
}

/// The share mode of these letters.
fn mode(letters: &str) -> Mode {
    Mode {
        read: letters.contains('r'),
        write: letters.contains('w'),
        delete: letters.contains('d'),
    }
}

fn add(rt: &impl Abort, sharing: &mut Sharing, handle: HandleId, asked: &str, left: &str) {
    assert!(rt; !sharing.has(handle));
    if sharing.add(handle, access(asked), mode(left)).is_err() {
        panic!(rt; "no memory");
    }
}

/// Whether an open of these rights and share mode forbids a new one of those.
fn forbids(rt: &impl Abort, alloc: Global, there: (&str, &str), new: (&str, &str)) -> bool {
    let mut sharing = Sharing::new(alloc);
    add(rt, &mut sharing, A, there.0, there.1);
    sharing.forbids(access(new.0), mode(new.1)) == Some(A)
}

/// An open against a new one: both share modes count. Each answer is worked out by hand.
#[test]
fn share_modes_of_an_open_and_a_new_one(rt: HostRuntime) {
    let cases = [
        (("r", "r"), ("r", "r"), false),
        (("r", "r"), ("w", "rwd"), true),
        (("r", "rwd"), ("w", "w"), true),
        (("r", "rwd"), ("w", "rw"), false),
        (("d", "rwd"), ("r", "rw"), true),
        (("d", "rwd"), ("r", "rwd"), false),
        (("w", "r"), ("r", "rw"), false),
        (("rw", "rwd"), ("r", "r"), true),
        (("r", ""), ("d", "rwd"), true),
        (("", ""), ("rw", ""), false),
        (("rw", ""), ("", ""), false),
    ];
    for case in cases.iter() {
        assert_eq!(rt; forbids(&rt, rt.alloc(), case.0, case.1), case.2);
    }
}

/// Of three opens the least that forbids is named, and the least that may change the file.
#[test]
fn the_least_open_is_named(rt: HostRuntime) {
    let mut sharing = Sharing::new(rt.alloc());
    add(&rt, &mut sharing, C, "d", "r");
    add(&rt, &mut sharing, A, "r", "rwd");
    add(&rt, &mut sharing, B, "r", "r");
    assert_eq!(rt; sharing.count(), 3);
    assert_eq!(rt; sharing.forbids(access("w"), mode("rwd")), Some(B));
    assert_eq!(rt; sharing.changing(), Some(C));
    assert_eq!(rt; sharing.remove(B), true);
    assert_eq!(rt; sharing.remove(B), false);
    assert_eq!(rt; sharing.forbids(access("w"), mode("rwd")), Some(C));
    assert_eq!(rt; sharing.count(), 2);
}
