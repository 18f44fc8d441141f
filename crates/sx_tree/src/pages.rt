//! Pages of a listing of a directory.
ghost use Rattle.std.specs.Prelude.{◌≡◌, Some, IfOk};
ghost use Rattle.sx_tree.specs.Pages.{folded_name, item_of, names_between, names_page, page_items, page_next};
ghost use Rattle.sx_tree.specs.Pages.{folded_or_empty, kept_or_empty, names_from, slot_item};

use crate::paths::text_of;
use crate::slot::NodeSlot;
use crate::tree::Tree;
use std::alloc::Global;
use std::collections::BTreeMap;
use sx_base::Items;
use sx_memory::NoMemory;
use sx_names::{Folded, NameItem, NamesPage, PageSize, Part, Text};

/// The items of a page, and the folded name in which the next one starts.
#[derive(Drop)]
struct Page {
    items: Items<NameItem>,
    next: Text,
}

impl Tree {
    /// A page of the names in a directory that begin with a prefix, names and prefix folded, from a folded name on: in
    /// order of folded name, at most so many, and the folded name in which the next page starts, which is empty at the
    /// end. The first item costs the logarithm of what is there, and each further one that of all nodes.
    pub fn walk_from(
        &self,
        dir: u64,
        prefix: &Text,
        marker: &Text,
        max: PageSize,
    ) -> Result<NamesPage, NoMemory>
        ensures { IfOk result (λ page. page ≡ names_page self.now dir prefix.now marker.now max) }
    {
        let page = self.page_from(dir, prefix, marker, max)?;
        Ok(NamesPage {
            prefix: prefix.copy()?,
            marker: marker.copy()?,
            max,
            items: page.items,
            next: page.next,
        })
    }

    /// The items of a page of a directory, and where the next one starts.
    fn page_from(
        &self,
        dir: u64,
        prefix: &Text,
        marker: &Text,
        max: PageSize,
    ) -> Result<Page, NoMemory>
        ensures items { IfOk result (λ page. page.items
            ≡ page_items (item_of self.now) max (names_from self.now dir prefix.now marker.now)) }
        ensures next { IfOk result (λ page. page.next
            ≡ page_next (folded_name self.now) max (names_from self.now dir prefix.now marker.now)) }
    {
        match self.nodes.get(&dir) {
            Some(slot) => {
                let front = prefix.folded()?;
                let from = Items::copy_of(self.alloc, marker.bytes())?;
                self.page_in(&slot.below, front.bytes(), &from, max.results())
            }
            None => Ok(Page {
                items: Items::new(self.alloc),
                next: Text::new(self.alloc),
            }),
        }
    }

    /// The items of a page of these names, and where the next one starts.
    fn page_in(
        &self,
        below: &BTreeMap<Folded, u64>,
        prefix: &[u8],
        marker: &Folded,
        max: u32,
    ) -> Result<Page, NoMemory>
        ensures items { IfOk result (λ page. page.items
            ≡ page_items (item_of self.now) max (names_between prefix.now marker.now below.now.entries)) }
        ensures next { IfOk result (λ page. page.next
            ≡ page_next (folded_name self.now) max (names_between prefix.now marker.now below.now.entries)) }
    {
        let mut items = Items::new(self.alloc);
        for (name, id) in below.range(marker..) {
            if name.as_slice().starts_with(prefix) {
                if items.len() == max as usize {
                    let next = self.folded_name(name, *id)?;
                    return Ok(Page { items, next });
                }
                items.push(self.item(name, *id)?)?;
            }
        }
        Ok(Page {
            items,
            next: Text::new(self.alloc),
        })
    }

    /// The item of an id that is listed under a name.
    fn item(&self, name: &Folded, id: u64) -> Result<NameItem, NoMemory>
        ensures { IfOk result (λ item. item ≡ item_of self.now (name.now, id)) }
    {
        match self.nodes.get(&id) {
            Some(slot) => slot.item(self.alloc, id),
            None => Ok(NameItem {
                name: Text::new(self.alloc),
                dir: false,
                id,
                length: 0,
            }),
        }
    }

    /// The folded name of an id that is listed under a name.
    fn folded_name(&self, name: &Folded, id: u64) -> Result<Text, NoMemory>
        ensures { IfOk result (λ text. text ≡ folded_name self.now (name.now, id)) }
    {
        match self.nodes.get(&id) {
            Some(slot) => folded_or_empty(self.alloc, &slot.name),
            None => Ok(Text::new(self.alloc)),
        }
    }
}

impl NodeSlot {
    /// The item of what stands here, under an id.
    fn item(&self, alloc: Global, id: u64) -> Result<NameItem, NoMemory>
        ensures { IfOk result (λ item. item ≡ slot_item id (Some self.now)) }
    {
        Ok(NameItem {
            name: kept_or_empty(alloc, &self.name)?,
            dir: self.node.kind.is_directory(),
            id,
            length: self.node.kind.length(),
        })
    }
}

/// A name as it is kept, and an empty text where there is none.
fn kept_or_empty(alloc: Global, name: &Option<Part>) -> Result<Text, NoMemory>
    ensures { IfOk result (λ text. text ≡ kept_or_empty name.now) }
{
    match name {
        Some(name) => Text::copy_of(alloc, text_of(name)),
        None => Ok(Text::new(alloc)),
    }
}

/// A name folded, and an empty text where there is none.
fn folded_or_empty(alloc: Global, name: &Option<Part>) -> Result<Text, NoMemory>
    ensures { IfOk result (λ text. text ≡ folded_or_empty name.now) }
{
    match name {
        Some(name) => name.folded_text(),
        None => Ok(Text::new(alloc)),
    }
}
