//! The parts of an answer, handed on to be printed.

use crate::gather::Word;
use sx_call::{FilePart, LeaseShown, Shown, Stamp};
use sx_lease::LeaseId;
use sx_moment::Moment;
use sx_names::{Attributes, ContentMd5, ContentText, MetaPair};

/// A part of an answer.
#[derive(Clone, Copy)]
pub(crate) enum Field<'a> {
    /// Bytes as they stand.
    Text(&'a [u8]),
    /// A line with a number. The name has its colon and space behind it, here and below.
    Number(&'a [u8], u64),
    /// The moment of a snapshot.
    Snapshot(&'a Moment),
    /// A stamp.
    Stamped(&'a Stamp),
    /// The attributes of a file or directory.
    Attributes(&'a Attributes),
    /// Its times and ids.
    Facts(&'a Shown),
    /// The state of a lease.
    Lease(&'a LeaseShown),
    /// The id under which a lease is held, if one is told.
    LeaseHeld(&'a Option<LeaseId>),
    /// Metadata.
    Metas(&'a [MetaPair]),
    /// The content type, if one is kept.
    Kind(&'a Option<ContentText>),
    /// A line with the value of a content header, if one is kept.
    Content(&'a [u8], &'a Option<ContentText>),
    /// A line with a digest, if one is kept.
    Digest(&'a [u8], &'a Option<ContentMd5>),
    /// That ranges may be asked for, and which range this is.
    Range(&'a FilePart),
    /// A text in which `&`, `<` and `>` are escaped.
    Escaped(&'a [u8]),
    /// A message in which they are.
    Message(&'a [Word<'a>]),
}
