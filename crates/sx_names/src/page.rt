//! A page of a listing of a directory.

ghost use Rattle.std.specs.Prelude.{◌≡◌, ◌≤◌, IfOk, min};
ghost use Rattle.sx_names.specs.Limits.{IsPageSize};
ghost use Rattle.sx_names.specs.declared.page.TheConstants.{MAX_RESULTS};

use crate::text::Text;
use std::marker::Model;
use sx_base::{Items, NoMemory};

/// The most results that a page of a listing has.
pub const MAX_RESULTS: u32 = 5000;

/// How many results a page of a listing has at most: 1 to 5,000. Contracts see the number.
#[derive(Clone, Copy, Debug, PartialEq, Eq)]
pub struct PageSize {
    results: u32,
}

impl Model for PageSize {
    ghost use Rattle.std.specs.Prelude.{ℕ};
    ghost use Rattle.sx_names.specs.Limits.{IsPageSize};

    ghost Value = { ℕ };

    ghost view = { λ p. p.results };

    ghost invariant = { λ p. IsPageSize p.results };

    ghost inverse = { λ n. record { results = n } };
}

impl PageSize {
    /// A page of so many results. More than 5,000 count as 5,000.
    pub fn of(results: u32) -> PageSize
        requires { 1 ≤ results }
        ensures { result ≡ min results MAX_RESULTS }
    {
        PageSize {
            results: results.min(MAX_RESULTS),
        }
    }

    /// The number of results.
    pub fn results(self) -> u32
        ensures value { result ≡ self }
        ensures limits { IsPageSize self }
    {
        self.results
    }
}

/// A name in a listing of a directory.
#[derive(Debug, Drop, PartialEq)]
pub struct NameItem {
    /// The name as it is kept.
    pub name: Text,
    /// Whether it is a directory's.
    pub dir: bool,
    /// The id of the file or directory.
    pub id: u64,
    /// The file's length in bytes, and 0 for a directory.
    pub length: u64,
}

impl NameItem {
    /// An equal item of its own.
    pub fn copy(&self) -> Result<NameItem, NoMemory>
        ensures { IfOk result (λ item. item ≡ self.now) }
    {
        Ok(NameItem {
            name: self.name.copy()?,
            dir: self.dir,
            id: self.id,
            length: self.length,
        })
    }
}

/// A page of a listing of a directory ("List Directories and Files" of Azure Files).
#[derive(Debug, Drop, PartialEq)]
pub struct NamesPage {
    /// What the names begin with, as it was asked for.
    pub prefix: Text,
    /// The folded name in which the page starts, as it was asked for.
    pub marker: Text,
    /// How many items the page has at most.
    pub max: PageSize,
    /// The items, in order of their folded names.
    pub items: Items<NameItem>,
    /// The folded name in which the next page starts. It is empty at the end.
    pub next: Text,
}

impl NamesPage {
    /// An equal page of its own.
    pub fn copy(&self) -> Result<NamesPage, NoMemory>
        ensures { IfOk result (λ page. page ≡ self.now) }
    {
        Ok(NamesPage {
            prefix: self.prefix.copy()?,
            marker: self.marker.copy()?,
            max: self.max,
            items: copy_items(&self.items)?,
            next: self.next.copy()?,
        })
    }
}

fn copy_items(items: &Items<NameItem>) -> Result<Items<NameItem>, NoMemory>
    ensures { IfOk result (λ copy. copy ≡ items.now) }
{
    let mut copy = Items::new(items.allocator());
    for item in items.as_slice() {
        copy.push(item.copy()?)?;
    }
    Ok(copy)
}
