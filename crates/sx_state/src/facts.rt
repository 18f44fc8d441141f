//! The facts of directories and files: new ones, and changes of them as data.
ghost use Rattle.std.specs.Prelude.{◌≡◌};
ghost use Rattle.sx_spec.specs.Facts.{facts_over, new_facts, shown_of, stamp_of};
ghost use Rattle.sx_spec.specs.FileCalls.{time_given, with_properties};
ghost use Rattle.sx_state.specs.Changed.{facts_after};

use sx_call::{Shown, Stamp, Time};
use sx_lease::FileLease;
use sx_moment::Moment;
use sx_names::{Attributes, Meta};
use sx_tree::{Facts, Node};

/// What a call makes of the facts of a directory or file.
#[derive(Debug, Drop)]
pub enum FactsChange {
    /// They get a stamp.
    Stamped(Stamp),
    /// They get a stamp, and were written at its moment.
    Written(Stamp),
    /// They get a stamp and other metadata.
    Metadata(Stamp, Meta),
    /// They get another state of the lease.
    Lease(FileLease),
    /// The directory or file is to be deleted when its last open is closed.
    Pending,
    /// They become new ones, but for the lease and whether the file is pending.
    Over {
        /// The stamp.
        now: Stamp,
        /// The attributes.
        attributes: Attributes,
        /// The creation time, or else the stamp's moment.
        created: Option<Moment>,
        /// The last write time, or else the stamp's moment.
        written: Option<Moment>,
        /// The metadata.
        meta: Meta,
    },
    /// They get a stamp, and what is given of attributes and times.
    Properties {
        /// The stamp.
        now: Stamp,
        /// Whether the length changes, which sets the last write time where none is given.
        resized: bool,
        /// The attributes, where they are given.
        attributes: Option<Attributes>,
        /// The creation time.
        created: Time,
        /// The last write time.
        written: Time,
    },
}

/// When a directory or file was changed last, and by the entry at which place.
pub fn stamp_of(node: &Node) -> Stamp
    ensures { result ≡ stamp_of node.now }
{
    Stamp {
        changed: node.facts.changed,
        etag: node.facts.etag,
    }
}

/// What else replies show of a directory or file.
pub fn shown_of(node: &Node) -> Shown
    ensures { result ≡ shown_of node.now }
{
    Shown {
        attributes: node.facts.attributes,
        created: node.facts.created,
        written: node.facts.written,
        changed: node.facts.changed,
        id: node.id,
        parent: node.parent,
    }
}

/// The facts of a directory or file that is made; its times are those that are given, or the stamp's moment.
pub fn new_facts(
    now: Stamp,
    attributes: Attributes,
    created: Option<Moment>,
    written: Option<Moment>,
    meta: Meta,
) -> Facts
    ensures { result ≡ new_facts now attributes created written meta }
{
    Facts {
        etag: now.etag,
        created: created.unwrap_or(now.changed),
        written: written.unwrap_or(now.changed),
        changed: now.changed,
        attributes,
        meta,
        pending: false,
        lease: FileLease::new(),
    }
}

/// A time that a call gives, or the one that is kept.
pub fn time_given(now: Moment, kept: Moment, time: Time) -> Moment
    ensures { result ≡ time_given now kept time }
{
    match time {
        Time::Keep => kept,
        Time::Now => now,
        Time::At(at) => at,
    }
}

/// Replaces facts by new ones, but for the lease and whether the file is pending.
fn replace_facts(
    facts: &mut Facts,
    now: Stamp,
    attributes: Attributes,
    created: Option<Moment>,
    written: Option<Moment>,
    meta: Meta,
)
    ensures { facts.new ≡ facts_over now attributes created written meta facts.old }
{
    facts.etag = now.etag;
    facts.created = created.unwrap_or(now.changed);
    facts.written = written.unwrap_or(now.changed);
    facts.changed = now.changed;
    facts.attributes = attributes;
    facts.meta = meta;
}

/// Gives facts a stamp, and what is given of attributes and times.
fn set_properties(
    facts: &mut Facts,
    now: Stamp,
    resized: bool,
    attributes: Option<Attributes>,
    created: Time,
    written: Time,
)
    ensures { facts.new ≡ with_properties now resized attributes created written facts.old }
{
    let kept = if resized { now.changed } else { facts.written };
    facts.etag = now.etag;
    facts.changed = now.changed;
    facts.attributes = attributes.unwrap_or(facts.attributes);
    facts.created = time_given(now.changed, facts.created, created);
    facts.written = time_given(now.changed, kept, written);
}

/// Changes facts.
pub(crate) fn change_facts(facts: &mut Facts, change: FactsChange)
    ensures { facts.new ≡ facts_after change facts.old }
{
    match change {
        FactsChange::Stamped(now) => {
            facts.etag = now.etag;
            facts.changed = now.changed;
        }
        FactsChange::Written(now) => {
            facts.etag = now.etag;
            facts.changed = now.changed;
            facts.written = now.changed;
        }
        FactsChange::Metadata(now, meta) => {
            facts.etag = now.etag;
            facts.changed = now.changed;
            facts.meta = meta;
        }
        FactsChange::Lease(state) => facts.lease = state,
        FactsChange::Pending => facts.pending = true,
        FactsChange::Over {
            now,
            attributes,
            created,
            written,
            meta,
        } => replace_facts(facts, now, attributes, created, written, meta),
        FactsChange::Properties {
            now,
            resized,
            attributes,
            created,
            written,
        } => set_properties(facts, now, resized, attributes, created, written),
    }
}
