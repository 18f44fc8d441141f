//! The calls that list.

ghost use Rattle.std.specs.Prelude.{◌≡◌, IfOk, OnOk, Some, codes, decimal};
ghost use Rattle.std.specs.Option.{option_map};
ghost use Rattle.sx_heads.specs.DirectorySpellings.{list_directory, list_handles};
ghost use Rattle.sx_heads.specs.ShareSpellings.{list_shares, said_if};
ghost use Rattle.sx_heads.specs.Spellings.{request_of, target_text};
ghost use Rattle.sx_heads.specs.Targets.{with_parameter, query_text};
ghost use Rattle.sx_heads.specs.Values.{escaped, handle_text, shares_marker_text};

use crate::escapes::escaped;
use crate::fields::{put, request_with};
use crate::targets::{ask, path_text, plain_query};
use crate::values::{bool_text, decimal_text, handle_text, shares_marker_text};
use http::Method;
use std::alloc::Global;
use sx_base::Items;
use sx_call::{ListDirectory, ListHandles, ListShares, QueryText, SharesMarker};
use sx_decode::forms::{Comp, Restype};
use sx_guard::HandleId;
use sx_http::Request;
use sx_memory::NoMemory;
use sx_names::{PageSize, Text};

fn ask_text(alloc: Global, query: &mut Text, name: &str, text: Text) -> Result<(), NoMemory>
    ensures { OnOk result (query.new ≡ with_parameter query.old name.now (Some text)) }
{
    ask(alloc, query, name, text.bytes())
}

fn ask_prefix(alloc: Global, query: &mut Text, prefix: &QueryText) -> Result<(), NoMemory>
    ensures { OnOk result (query.new ≡ with_parameter query.old (codes "prefix") (Some prefix.now)) }
{
    ask(alloc, query, "prefix", prefix.text().bytes())
}

fn ask_page(alloc: Global, query: &mut Text, max: PageSize) -> Result<(), NoMemory>
    ensures { OnOk result (query.new ≡ with_parameter query.old (codes "maxresults") (Some (decimal max))) }
{
    let text = decimal_text(alloc, u64::from(max.results()))?;
    ask_text(alloc, query, "maxresults", text)
}

fn ask_share(alloc: Global, query: &mut Text, marker: &SharesMarker) -> Result<(), NoMemory>
    ensures { OnOk result
        (query.new ≡ with_parameter query.old (codes "marker") (Some (shares_marker_text marker.now))) }
{
    let text = shares_marker_text(alloc, marker)?;
    ask_text(alloc, query, "marker", text)
}

fn ask_share_if(
    alloc: Global,
    query: &mut Text,
    marker: &Option<SharesMarker>,
) -> Result<(), NoMemory>
    ensures { OnOk result
        (query.new ≡ with_parameter query.old (codes "marker") (option_map shares_marker_text marker.now)) }
{
    match marker {
        Some(marker) => ask_share(alloc, query, marker),
        None => Ok(()),
    }
}

fn ask_snapshots(alloc: Global, query: &mut Text, snapshots: bool) -> Result<(), NoMemory>
    ensures { OnOk result
        (query.new ≡ with_parameter query.old (codes "include") (said_if snapshots (codes "snapshots"))) }
{
    if snapshots {
        ask(alloc, query, "include", b"snapshots")
    } else {
        Ok(())
    }
}

#[tactic(auto, unfolding(crate::specs::Targets::query_text, crate::specs::ShareSpellings::list_shares))]
fn shares_query(alloc: Global, call: &ListShares) -> Result<Text, NoMemory>
    ensures { IfOk result (λ q. q ≡ query_text (list_shares call.now).query) }
{
    let mut query = plain_query(alloc, Restype::Absent, Comp::List, None)?;
    ask_prefix(alloc, &mut query, &call.prefix)?;
    ask_share_if(alloc, &mut query, &call.marker)?;
    ask_page(alloc, &mut query, call.max)?;
    ask_snapshots(alloc, &mut query, call.snapshots)?;
    Ok(query)
}

#[tactic(auto, unfolding(crate::specs::Spellings::target_text, crate::specs::Targets::path_text, crate::specs::ShareSpellings::list_shares))]
fn shares_target(alloc: Global, call: &ListShares) -> Result<Text, NoMemory>
    ensures { IfOk result (λ t. t ≡ target_text (list_shares call.now).at (list_shares call.now).query) }
{
    let query = shares_query(alloc, call)?;
    let mut target = Text::copy_of(alloc, "/")?;
    target.append(query.as_str())?;
    Ok(target)
}

/// List Shares.
#[tactic(auto, unfolding(crate::specs::Spellings::request_of, crate::specs::Spellings::headers_spelled, crate::specs::ShareSpellings::list_shares))]
pub(crate) fn list_shares(alloc: Global, call: &ListShares) -> Result<Request, NoMemory>
    ensures { IfOk result (λ r. r ≡ request_of (list_shares call.now)) }
{
    let target = shares_target(alloc, call)?;
    let headers = Items::new(alloc);
    request_with(alloc, Method::GET, target, headers, Items::new(alloc))
}

fn ask_name(alloc: Global, query: &mut Text, marker: &QueryText) -> Result<(), NoMemory>
    ensures { OnOk result (query.new ≡ with_parameter query.old (codes "marker") (Some (escaped marker.now))) }
{
    let encoded = escaped(alloc, marker.text().bytes())?;
    ask(alloc, query, "marker", encoded.as_bytes())
}

#[tactic(auto, unfolding(crate::specs::Targets::query_text, crate::specs::DirectorySpellings::list_directory))]
fn names_query(alloc: Global, call: &ListDirectory) -> Result<Text, NoMemory>
    ensures { IfOk result (λ q. q ≡ query_text (list_directory call.now).query) }
{
    let mut query = plain_query(alloc, Restype::Directory, Comp::List, call.snap)?;
    ask_prefix(alloc, &mut query, &call.prefix)?;
    ask_name(alloc, &mut query, &call.marker)?;
    ask_page(alloc, &mut query, call.max)?;
    Ok(query)
}

#[tactic(auto, unfolding(crate::specs::Spellings::target_text, crate::specs::DirectorySpellings::list_directory))]
fn names_target(alloc: Global, call: &ListDirectory) -> Result<Text, NoMemory>
    ensures { IfOk result (λ t. t ≡ target_text (list_directory call.now).at (list_directory call.now).query) }
{
    let query = names_query(alloc, call)?;
    let mut target = path_text(alloc, &call.at.share, call.at.path.parts())?;
    target.append(query.as_str())?;
    Ok(target)
}

/// List Directories and Files.
#[tactic(auto, unfolding(crate::specs::Spellings::request_of, crate::specs::Spellings::headers_spelled, crate::specs::DirectorySpellings::list_directory))]
pub(crate) fn list_directory(alloc: Global, call: &ListDirectory) -> Result<Request, NoMemory>
    ensures { IfOk result (λ r. r ≡ request_of (list_directory call.now)) }
{
    let target = names_target(alloc, call)?;
    let headers = Items::new(alloc);
    request_with(alloc, Method::GET, target, headers, Items::new(alloc))
}

fn ask_handle(alloc: Global, query: &mut Text, handle: HandleId) -> Result<(), NoMemory>
    ensures { OnOk result
        (query.new ≡ with_parameter query.old (codes "marker") (Some (handle_text handle))) }
{
    let text = handle_text(alloc, handle)?;
    ask_text(alloc, query, "marker", text)
}

fn ask_handle_if(alloc: Global, query: &mut Text, handle: Option<HandleId>) -> Result<(), NoMemory>
    ensures { OnOk result
        (query.new ≡ with_parameter query.old (codes "marker") (option_map handle_text handle)) }
{
    match handle {
        Some(handle) => ask_handle(alloc, query, handle),
        None => Ok(()),
    }
}

#[tactic(auto, unfolding(crate::specs::Targets::query_text, crate::specs::DirectorySpellings::list_handles))]
fn handles_query(alloc: Global, call: &ListHandles) -> Result<Text, NoMemory>
    ensures { IfOk result (λ q. q ≡ query_text (list_handles call.now).query) }
{
    let mut query = plain_query(alloc, Restype::Absent, Comp::ListHandles, None)?;
    ask_handle_if(alloc, &mut query, call.marker)?;
    ask_page(alloc, &mut query, call.max)?;
    Ok(query)
}

#[tactic(auto, unfolding(crate::specs::Spellings::target_text, crate::specs::DirectorySpellings::list_handles))]
fn handles_target(alloc: Global, call: &ListHandles) -> Result<Text, NoMemory>
    ensures { IfOk result (λ t. t ≡ target_text (list_handles call.now).at (list_handles call.now).query) }
{
    let query = handles_query(alloc, call)?;
    let mut target = path_text(alloc, &call.at.share, call.at.path.parts())?;
    target.append(query.as_str())?;
    Ok(target)
}

/// List Handles.
#[tactic(auto, unfolding(crate::specs::Spellings::request_of, crate::specs::Spellings::headers_spelled, crate::specs::DirectorySpellings::list_handles))]
pub(crate) fn list_handles(alloc: Global, call: &ListHandles) -> Result<Request, NoMemory>
    ensures { IfOk result (λ r. r ≡ request_of (list_handles call.now)) }
{
    let target = handles_target(alloc, call)?;
    let mut headers = Items::new(alloc);
    put(
        alloc,
        &mut headers,
        "x-ms-recursive",
        bool_text(call.recursive),
    )?;
    request_with(alloc, Method::GET, target, headers, Items::new(alloc))
}
