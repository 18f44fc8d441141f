//! Lists with memory for each call.
use std::alloc::Global;
use std::process::Abort;
use sx_base::Items;

fn a_list(rt: &impl Abort, alloc: Global, bytes: &[u8]) -> Items<u8> {
    match Items::copy_of(alloc, bytes) {
        Ok(items) => items,
        Err(_) => panic!(rt; "no memory"),
    }
}

fn a_copy(rt: &impl Abort, items: &Items<u8>) -> Items<u8> {
    match items.copy() {
        Ok(copy) => copy,
        Err(_) => panic!(rt; "no memory"),
    }
}

#[test]
fn a_list_grows(rt: HostRuntime) {
    let mut bytes = a_list(&rt, rt.alloc(), b"abc");
    assert_eq!(rt; bytes.push(b'd'), Ok(()));
    assert_eq!(rt; bytes.lengthen(6), Ok(()));
    assert_eq!(rt; bytes.lengthen(2), Ok(()));
    assert_eq!(rt; bytes.as_slice(), b"abcd\0\0".as_slice());
    if bytes.len() == 6 {
        bytes.overwrite(3, b"xyz");
    }
    assert_eq!(rt; bytes.as_slice(), b"abcxyz".as_slice());
    assert_eq!(rt; bytes.get(3).copied(), Some(b'x'));
    assert_eq!(rt; bytes.get(6).copied(), None);
}

#[test]
fn a_list_is_copied(rt: HostRuntime) {
    let bytes = a_list(&rt, rt.alloc(), b"abc");
    let copy = a_copy(&rt, &bytes);
    assert!(rt; copy.same(&bytes));
    assert!(rt; !copy.same(&a_list(&rt, rt.alloc(), b"abd")));
}
