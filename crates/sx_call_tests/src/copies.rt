//! Every call is copied where memory suffices. That a copy is equal is a clause of each.
use crate::directories::{
    create_directory, delete_directory, force_close_handles, get_directory_metadata,
    get_directory_properties, list_directory, list_handles, set_directory_metadata,
};
use crate::files::{
    clear_range, create_file, delete_file, get_file, get_file_metadata, get_file_properties,
    lease_file, list_ranges, set_file_metadata, set_file_properties, update_range,
};
use crate::sessions::{
    end, smb_close, smb_dispose, smb_list, smb_lock, smb_open, smb_read, smb_resize, smb_stat,
    smb_unlock, smb_write, start,
};
use crate::shares::{
    create_share, delete_share, delete_snapshot, get_share_metadata, get_share_properties,
    lease_share, list_shares, set_share_metadata, set_share_properties, snapshot_share,
};
use std::alloc::Global;
use std::process::Abort;
use sx_call::{Call, Entry, Noted};
use sx_memory::NoMemory;
use sx_moment::ClockMoment;

/// Lets go of a value and of its copy, which is there.
fn was_copied<T: Drop>(rt: &impl Abort, _value: T, copy: Result<T, NoMemory>) {
    assert!(rt; copy.is_ok());
}

fn copies(rt: &impl Abort, call: Call) {
    let copy = call.copy();
    was_copied(rt, call, copy);
}

/// The calls on shares.
#[test]
fn calls_on_shares(rt: HostRuntime) {
    let alloc = rt.alloc();
    copies(&rt, list_shares(&rt, alloc));
    copies(&rt, create_share(&rt, alloc));
    copies(&rt, get_share_properties(&rt, alloc));
    copies(&rt, set_share_properties(&rt, alloc));
    copies(&rt, get_share_metadata(&rt, alloc));
    copies(&rt, set_share_metadata(&rt, alloc));
    copies(&rt, delete_share(&rt, alloc));
    copies(&rt, delete_snapshot(&rt, alloc));
    copies(&rt, snapshot_share(&rt, alloc));
    copies(&rt, lease_share(&rt, alloc));
}

/// The calls on directories and on handles.
#[test]
fn calls_on_directories(rt: HostRuntime) {
    let alloc = rt.alloc();
    copies(&rt, create_directory(&rt, alloc));
    copies(&rt, get_directory_properties(&rt, alloc));
    copies(&rt, get_directory_metadata(&rt, alloc));
    copies(&rt, set_directory_metadata(&rt, alloc));
    copies(&rt, delete_directory(&rt, alloc));
    copies(&rt, list_directory(&rt, alloc));
    copies(&rt, list_handles(&rt, alloc));
    copies(&rt, force_close_handles(&rt, alloc));
}

/// The calls on files and their facts.
#[test]
fn calls_on_files(rt: HostRuntime) {
    let alloc = rt.alloc();
    copies(&rt, create_file(&rt, alloc));
    copies(&rt, get_file_properties(&rt, alloc));
    copies(&rt, set_file_properties(&rt, alloc));
    copies(&rt, get_file_metadata(&rt, alloc));
    copies(&rt, set_file_metadata(&rt, alloc));
    copies(&rt, delete_file(&rt, alloc));
    copies(&rt, lease_file(&rt, alloc));
}

/// The calls on ranges of files.
#[test]
fn calls_on_ranges(rt: HostRuntime) {
    let alloc = rt.alloc();
    copies(&rt, get_file(&rt, alloc));
    copies(&rt, update_range(&rt, alloc));
    copies(&rt, clear_range(&rt, alloc));
    copies(&rt, list_ranges(&rt, alloc));
}

/// The calls of sessions.
#[test]
fn calls_of_sessions(rt: HostRuntime) {
    let alloc = rt.alloc();
    copies(&rt, start());
    copies(&rt, end());
    copies(&rt, smb_open(&rt, alloc));
    copies(&rt, smb_close());
    copies(&rt, smb_read(&rt));
    copies(&rt, smb_write(&rt, alloc));
    copies(&rt, smb_resize(&rt));
    copies(&rt, smb_lock(&rt));
    copies(&rt, smb_unlock(&rt));
    copies(&rt, smb_stat());
    copies(&rt, smb_list(&rt, alloc));
    copies(&rt, smb_dispose());
}

/// An entry, and its place in the history.
fn an_entry(rt: &impl Abort, alloc: Global) -> Entry {
    Entry {
        who: 1,
        session: 0,
        at: ClockMoment::of(16_409_952_000_000_000),
        fresh: 7,
        call: delete_directory(rt, alloc),
    }
}

/// Entries, and places of the history.
#[test]
fn entries(rt: HostRuntime) {
    let alloc = rt.alloc();
    let entry = an_entry(&rt, alloc);
    let copy = entry.copy();
    was_copied(&rt, entry, copy);
    let noted = Noted {
        entry: an_entry(&rt, alloc),
        refused: true,
    };
    let copy = noted.copy();
    was_copied(&rt, noted, copy);
}
