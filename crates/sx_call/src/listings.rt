//! What the calls that list ask for: the texts and places with which a page begins.
ghost use Rattle.std.specs.Prelude.{◌≡◌, ◌≤◌, IfOk, length};
ghost use Rattle.sx_call.specs.Limits.{if_within};
ghost use Rattle.sx_call.specs.Listings.{is_query_text};
ghost use Rattle.sx_call.specs.declared.listings.TheConstants.{QUERY_TEXT_LIMIT};

use std::marker::Model;
use sx_memory::NoMemory;
use sx_moment::Moment;
use sx_names::{ShareName, Text};

/// The most bytes of a prefix or marker of a request, counted when it is decoded: 4,096.
pub const QUERY_TEXT_LIMIT: usize = 4_096;

/// A prefix or a marker of a request: a text of at most 4,096 bytes. Contracts see its bytes.
#[derive(Debug, Drop)]
pub struct QueryText {
    text: Text,
}

impl Model for QueryText {
    ghost use Rattle.std.specs.Prelude.{◌≡◌, List, ℕ, true};
    ghost use Rattle.sx_call.specs.Listings.{is_query_text};

    ghost Value = { List ℕ };

    ghost view = { λ q. q.text };

    ghost invariant = { λ q. is_query_text q.text ≡ true };
}

impl QueryText {
    /// The same text, where it is short enough.
    pub fn of(text: Text) -> Option<QueryText>
        ensures { result ≡ if_within is_query_text text }
    {
        if text.bytes().len() <= QUERY_TEXT_LIMIT {
            Some(QueryText { text })
        } else {
            None
        }
    }

    /// The text.
    pub fn text(&self) -> &Text
        ensures value { result.now ≡ self.now }
        ensures limit { length self.now ≤ QUERY_TEXT_LIMIT }
    {
        &self.text
    }

    /// An equal text of its own.
    pub fn copy(&self) -> Result<QueryText, NoMemory>
        ensures { IfOk result (λ q. q ≡ self.now) }
    {
        Ok(QueryText {
            text: self.text.copy()?,
        })
    }
}

/// Where a page of shares begins: at a share, or at one of its snapshots (`NAME` or `NAME@MOMENT`).
#[derive(Debug, Drop)]
pub struct SharesMarker {
    /// The name of the share. It need not be there.
    pub share: ShareName,
    /// The moment of the snapshot, or none for the share itself.
    pub snapshot: Option<Moment>,
}

impl SharesMarker {
    /// An equal marker of its own.
    pub fn copy(&self) -> Result<SharesMarker, NoMemory>
        ensures { IfOk result (λ m. m ≡ self.now) }
    {
        Ok(SharesMarker {
            share: self.share.copy()?,
            snapshot: self.snapshot,
        })
    }
}
