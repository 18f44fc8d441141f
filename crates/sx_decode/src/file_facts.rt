//! The facts of files that calls give: attributes, times, and what is read behind them.

ghost use Rattle.sx_decode.specs.Reading.{Reads};
ghost use Rattle.sx_decode.specs.FileRows.{new_facts, set_facts};

use crate::facts::{new_file_attributes, set_attributes};
use crate::leases::lease_of;
use crate::metadata::meta_of;
use crate::times::{new_time, set_time};
use crate::unread::Unread;
use std::alloc::Global;
use sx_call::{FileAttributes, Meta, Time};
use sx_http::Header;
use sx_lease::LeaseId;
use sx_moment::Moment;

/// What Create File gives a file beside its length and content headers.
#[derive(Drop)]
pub struct NewFacts {
    /// The attributes.
    pub attributes: FileAttributes,
    /// The creation time, or none for `now`.
    pub created: Option<Moment>,
    /// The last write time, or none for `now`.
    pub written: Option<Moment>,
    /// The metadata.
    pub meta: Meta,
    /// The lease id, where one is given.
    pub lease: Option<LeaseId>,
}

/// What Set File Properties gives a file beside its length and content headers.
#[derive(Drop)]
pub struct SetFacts {
    /// The attributes, or none where they are kept.
    pub attributes: Option<FileAttributes>,
    /// The creation time.
    pub created: Time,
    /// The last write time.
    pub written: Time,
    /// The lease id, where one is given.
    pub lease: Option<LeaseId>,
}

/// The attributes, times, metadata and lease id of a new file.
#[tactic(auto, unfolding(crate::specs::FileRows::new_facts))]
pub fn new_facts(alloc: Global, headers: &[Header]) -> Result<NewFacts, Unread>
    ensures { Reads result (new_facts headers.now) }
{
    let attributes = new_file_attributes(alloc, headers)?;
    let created = new_time(alloc, headers, "x-ms-file-creation-time")?;
    let written = new_time(alloc, headers, "x-ms-file-last-write-time")?;
    let meta = meta_of(alloc, headers)?;
    let lease = lease_of(alloc, headers)?;
    Ok(NewFacts {
        attributes,
        created,
        written,
        meta,
        lease,
    })
}

/// The attributes, times and lease id that are set.
#[tactic(auto, unfolding(crate::specs::FileRows::set_facts))]
pub fn set_facts(alloc: Global, headers: &[Header]) -> Result<SetFacts, Unread>
    ensures { Reads result (set_facts headers.now) }
{
    let attributes = set_attributes(alloc, headers)?;
    let created = set_time(alloc, headers, "x-ms-file-creation-time")?;
    let written = set_time(alloc, headers, "x-ms-file-last-write-time")?;
    let lease = lease_of(alloc, headers)?;
    Ok(SetFacts {
        attributes,
        created,
        written,
        lease,
    })
}
