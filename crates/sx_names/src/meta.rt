//! The metadata of a share, directory or file.

ghost use Rattle.std.specs.Prelude.{◌≡◌, ◌∷◌, ◌++◌, ◌-◌, ◌+◌, ◌<◌, ◌≤◌, ◌^◌, [], true, IfOk, OnOk, OnErr, length};
ghost use Rattle.std.specs.Prelude.{slice_get};
ghost use Rattle.sx_names.specs.Meta.{is_meta, is_meta_pair, meta_length, pair_length, follows, has_room};
ghost use Rattle.sx_names.specs.declared.meta.TheConstants.{MAX_META_NAMES, MAX_META_BYTES};

use crate::meta_pair::MetaPair;
use std::alloc::Global;
use std::cmp::Ordering;
use std::marker::Model;
use sx_base::{Items, NoMemory};

/// The most names that metadata has.
pub const MAX_META_NAMES: usize = 64;

/// The most bytes that all names and values of metadata have.
pub const MAX_META_BYTES: usize = 8192;

/// The metadata of a share, directory or file: names with their values, in order of name, no name twice, with at most
/// 64 names and at most 8,192 bytes in all names and values ("Setting and retrieving properties and metadata" of
/// Azure Files; the order and the number of names are this profile's rules).
#[derive(Debug, Drop)]
pub struct Meta {
    pairs: Items<MetaPair>,
    length: usize,
}

impl Model for Meta {
    ghost use Rattle.std.specs.Prelude.{◌≡◌, List, true};
    ghost use Rattle.sx_names.specs.declared.meta_pair.MetaPair.{MetaPair};

    ghost Value = { List MetaPair };

    ghost use Rattle.sx_names.specs.Meta.{is_meta, is_meta_pair, meta_length};

    ghost view = { λ m. m.pairs };

    ghost invariant = { λ m. (is_meta m.pairs ≡ true) × (m.length ≡ meta_length m.pairs) };
}

impl Meta {
    /// No metadata. It takes no memory, and keeps the allocator for later pairs.
    #[tactic(auto, unfolding(crate::specs::Meta::is_meta))]
    pub fn new(alloc: Global) -> Meta
        ensures { result ≡ [] }
    {
        Meta {
            pairs: Items::new(alloc),
            length: 0,
        }
    }

    /// Whether the pair may stand behind the others: its name comes after theirs, and all are at most 64 names with
    /// at most 8,192 bytes.
    pub fn takes(&self, pair: &MetaPair) -> bool
        ensures { result ≡ is_meta (self.now ++ pair.now ∷ []) }
    {
        let has_room = self.has_room(pair);
        follows_last(self.pairs.as_slice(), pair) && has_room
    }

    /// Puts a pair behind the others.
    pub fn push(&mut self, pair: MetaPair) -> Result<(), NoMemory>
        requires { is_meta (self.old ++ pair ∷ []) ≡ true }
        ensures ok { OnOk result (self.new ≡ self.old ++ pair ∷ []) }
        ensures err { OnErr result (self.new ≡ self.old) }
    {
        let more = pair_length(&pair);
        self.pairs.push(pair)?;
        self.length += more;
        Ok(())
    }

    /// An equal value of its own.
    pub fn copy(&self) -> Result<Meta, NoMemory>
        ensures { IfOk result (λ m. m ≡ self.now) }
    {
        let mut pairs = Items::new(self.pairs.allocator());
        for pair in self.pairs.as_slice() {
            pairs.push(pair.copy()?)?;
        }
        Ok(Meta {
            pairs,
            length: self.length,
        })
    }

    /// The pairs, in order of name.
    pub fn pairs(&self) -> &[MetaPair]
        ensures value { result.now ≡ self.now }
        ensures meta { is_meta self.now ≡ true }
        ensures few { length self.now ≤ MAX_META_NAMES }
    {
        self.pairs.as_slice()
    }

    /// The bytes of all names and values.
    pub fn length(&self) -> usize
        ensures value { result ≡ meta_length self.now }
        ensures short { result ≤ MAX_META_BYTES }
    {
        self.length
    }

    /// Whether there may be a name more, and so many bytes more.
    fn has_room(&self, pair: &MetaPair) -> bool
        ensures value { result ≡ has_room self.now pair.now }
        ensures pair { is_meta_pair pair.now ≡ true }
    {
        let length = self.length() + pair_length(pair);
        self.pairs.len() < MAX_META_NAMES && length <= MAX_META_BYTES
    }
}

fn follows_last(pairs: &[MetaPair], pair: &MetaPair) -> bool
    ensures { result ≡ follows (slice_get pairs.now (length pairs.now - 1)) pair.now }
{
    match pairs.last() {
        Some(last) => last.name.bytes().cmp(&pair.name.bytes()) == Ordering::Less,
        None => true,
    }
}

fn pair_length(pair: &MetaPair) -> usize
    ensures value { result ≡ pair_length pair.now }
    ensures bound { result < 2 ^ 63 + 128 }
    ensures pair { is_meta_pair pair.now ≡ true }
{
    pair.name.bytes().len() + pair.value.bytes().len()
}
