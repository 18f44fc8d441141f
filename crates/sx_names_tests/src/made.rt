//! Values of tests, made with ample memory.

use std::alloc::Global;
use std::process::Abort;
use sx_base::Items;
use sx_names::{NameFault, NameRule, Part, ShareName, Text, Unnamed};

/// A fault of this rule at this place of this part.
pub fn fault(rule: NameRule, part: u32, at: u64) -> Option<NameFault> {
    Some(NameFault { rule, part, at })
}

/// The fault of what was read, or none.
pub fn fault_of<N: Drop>(rt: &impl Abort, read: Result<N, Unnamed>) -> Option<NameFault> {
    match read {
        Ok(_) => None,
        Err(Unnamed::Fault(fault)) => Some(fault),
        Err(Unnamed::NoMemory) => panic!(rt; "no memory"),
    }
}

/// A text.
pub fn a_text(rt: &impl Abort, alloc: Global, text: &str) -> Text {
    match Text::copy_of(alloc, text) {
        Ok(text) => text,
        Err(_) => panic!(rt; "no memory"),
    }
}

/// These bytes, copied.
pub fn bytes_of(rt: &impl Abort, alloc: Global, bytes: &[u8]) -> Items<u8> {
    match Items::copy_of(alloc, bytes) {
        Ok(bytes) => bytes,
        Err(_) => panic!(rt; "no memory"),
    }
}

/// The same byte, so many times.
pub fn times(rt: &impl Abort, alloc: Global, byte: u8, count: usize) -> Items<u8> {
    match vec![in alloc; byte; count] {
        Ok(bytes) => Items::of(bytes),
        Err(_) => panic!(rt; "no memory"),
    }
}

/// The name of a file.
pub fn a_part(rt: &impl Abort, alloc: Global, bytes: &[u8]) -> Part {
    match Part::read(alloc, bytes) {
        Ok(part) => part,
        Err(_) => panic!(rt; "no part"),
    }
}

/// The name of a share.
pub fn a_share(rt: &impl Abort, alloc: Global, bytes: &[u8]) -> ShareName {
    match ShareName::read(alloc, bytes) {
        Ok(share) => share,
        Err(_) => panic!(rt; "no share"),
    }
}
