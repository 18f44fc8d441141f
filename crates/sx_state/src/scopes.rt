//! The open handles on a directory or file and, where that is asked for, on all below it.
ghost use Rattle.std.specs.Prelude.{◌≡◌, ◌≤◌, IfOk, drop, filter, length, map, option_map, take, unwrap_or};
ghost use Rattle.sx_spec.specs.FileCalls.{is_matched};
ghost use Rattle.sx_spec.specs.Pages.{handle_item, handles_page, is_from_handle, is_in_scope, next_handle, scope};
ghost use Rattle.sx_tree.specs.Tree.{node_at};

use crate::state::State;
use std::alloc::Global;
use sx_base::Items;
use sx_call::{HandleItem, HandlesPage, Open};
use sx_guard::HandleId;
use sx_memory::NoMemory;
use sx_names::PageSize;
use sx_tree::Tree;

/// Whether an open is on a node, or below it where that is asked for.
fn is_in_scope(tree: &Tree, id: u64, recursive: bool, held: &Open) -> bool
    ensures { result ≡ is_in_scope tree.now id recursive held.now }
{
    held.node == id || recursive && tree.is_under(id, held.node)
}

/// Whether an open is the one that is named, or all are.
fn is_matched(handle: &Option<HandleId>, held: &Open) -> bool
    ensures { result ≡ is_matched handle.now held.now }
{
    match handle {
        Some(handle) => *handle == held.handle,
        None => true,
    }
}

/// Whether an open isn't below a marker.
fn is_from(marker: &Option<HandleId>, held: &Open) -> bool
    ensures { result ≡ is_from_handle marker.now held.now }
{
    match marker {
        Some(marker) => !(held.handle < *marker),
        None => true,
    }
}

/// The opens in a scope that match, in order.
#[tactic(auto, using(crate::proofs::InScope::kept_twice))]
fn matched_in(
    alloc: Global,
    opens: &[Open],
    tree: &Tree,
    id: u64,
    recursive: bool,
    handle: &Option<HandleId>,
) -> Result<Vec<Open>, NoMemory>
    ensures found { IfOk result (λ found. found.items
        ≡ filter (is_matched handle.now) (filter (is_in_scope tree.now id recursive) opens.now)) }
    ensures few { IfOk result (λ found. length found.items ≤ length opens.now) }
{
    Ok(
        opens
            .iter()
            .filter(|held| is_in_scope(tree, id, recursive, held))
            .filter(|held| is_matched(handle, held))
            .copied()
            .collect(alloc)?,
    )
}

/// The opens in a scope from a marker on, in order.
fn listed_in(
    alloc: Global,
    opens: &[Open],
    tree: &Tree,
    id: u64,
    recursive: bool,
    marker: &Option<HandleId>,
) -> Result<Vec<Open>, NoMemory>
    ensures { IfOk result (λ found. found.items
        ≡ filter (is_from_handle marker.now) (filter (is_in_scope tree.now id recursive) opens.now)) }
{
    Ok(
        opens
            .iter()
            .filter(|held| is_in_scope(tree, id, recursive, held))
            .filter(|held| is_from(marker, held))
            .copied()
            .collect(alloc)?,
    )
}

/// The id of the directory in which a node stands, 0 where there is no such node.
fn parent_of(tree: &Tree, id: u64) -> u64
    ensures { result ≡ unwrap_or (option_map (λ n. n.parent) (node_at tree.now id)) 0 }
{
    match tree.node(id) {
        Some(node) => node.parent,
        None => 0,
    }
}

/// The handle of the first open behind a page of so many.
fn next_handle(opens: &[Open], max: usize) -> Option<HandleId>
    ensures { result ≡ next_handle (drop max opens.now) }
{
    if opens.len() <= max {
        return None;
    }
    Some(opens[max].handle)
}

/// The first opens, at most so many.
fn front_of(opens: &[Open], max: usize) -> &[Open]
    ensures { result.now ≡ take max opens.now }
{
    if opens.len() <= max {
        return opens;
    }
    &opens[..max]
}

impl State {
    /// The open handles on a node and, where that is asked for, on all below it, that match: in order of handle.
    pub fn opens_in_scope(
        &self,
        tree: &Tree,
        id: u64,
        recursive: bool,
        handle: Option<HandleId>,
    ) -> Result<Vec<Open>, NoMemory>
        ensures found { IfOk result (λ found. found.items
            ≡ filter (is_matched handle) (scope self.now tree.now id recursive)) }
        ensures few { IfOk result (λ found. length found.items ≤ length self.now.opens) }
    {
        matched_in(
            self.alloc,
            self.opens.as_slice(),
            tree,
            id,
            recursive,
            &handle,
        )
    }

    /// An open in a listing.
    fn handle_item(&self, tree: &Tree, held: &Open) -> Result<HandleItem, NoMemory>
        ensures { IfOk result (λ item. item ≡ handle_item self.now tree.now held.now) }
    {
        let path = tree.path_of(held.node)?;
        Ok(HandleItem {
            handle: held.handle,
            path,
            id: held.node,
            parent: parent_of(tree, held.node),
            session: held.handle.session,
            peer: self.peer_of(held.handle.session),
            at: held.at,
        })
    }

    /// Opens in a listing.
    fn handle_items(&self, tree: &Tree, opens: &[Open]) -> Result<Items<HandleItem>, NoMemory>
        ensures { IfOk result (λ items. items ≡ map (handle_item self.now tree.now) opens.now) }
    {
        let mut items = Items::new(self.alloc);
        for held in opens.iter() {
            items.push(self.handle_item(tree, held)?)?;
        }
        Ok(items)
    }

    /// A page of the open handles on a node and, where that is asked for, on all below it, from a marker on: in order
    /// of handle, at most so many, and the handle with which the next page starts.
    #[tactic(auto, using(crate::proofs::InScope::page_is))]
    pub fn handles_page(
        &self,
        tree: &Tree,
        id: u64,
        marker: &Option<HandleId>,
        max: PageSize,
        recursive: bool,
    ) -> Result<HandlesPage, NoMemory>
        ensures { IfOk result (λ page. page ≡ handles_page self.now tree.now id marker.now max recursive) }
    {
        let opens = listed_in(
            self.alloc,
            self.opens.as_slice(),
            tree,
            id,
            recursive,
            marker,
        )?;
        let most = max.results() as usize;
        let items = self.handle_items(tree, front_of(&opens, most))?;
        Ok(HandlesPage {
            items,
            next: next_handle(&opens, most),
        })
    }
}
