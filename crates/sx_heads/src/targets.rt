//! Targets: the path of a place, and the query behind it.

ghost use Rattle.std.specs.Prelude.{◌≡◌, ◌++◌, ◌∷◌, [], IfOk, OnOk, Some, codes};
ghost use Rattle.std.specs.List.{flat_map};
ghost use Rattle.std.specs.Option.{option_map};
ghost use Rattle.sx_base.specs.Moment.{moment_text};
ghost use Rattle.sx_decode.specs.declared.targets.Place.TheVariants.{Inside};
ghost use Rattle.sx_heads.specs.Queries.{restype_text, comp_text};
ghost use Rattle.sx_heads.specs.Spellings.{target_text};
ghost use Rattle.sx_heads.specs.Targets.{slashed, path_text, separator, with_parameter, query_text, asks};

use crate::escapes::escaped;
use crate::values::moment_digits;
use std::alloc::Global;
use sx_decode::forms::{Comp, Restype};
use sx_memory::NoMemory;
use sx_moment::Moment;
use sx_names::{Part, ShareName, Text};

fn add_part(alloc: Global, text: &mut Text, part: &[u8]) -> Result<(), NoMemory>
    ensures { OnOk result (text.new ≡ text.old ++ slashed part.now) }
{
    text.append("/")?;
    let encoded = escaped(alloc, part)?;
    text.append(encoded.as_str())
}

fn add_parts(alloc: Global, text: &mut Text, parts: &[Part]) -> Result<(), NoMemory>
    ensures { OnOk result (text.new ≡ text.old ++ flat_map slashed parts.now) }
{
    for part in parts {
        add_part(alloc, text, part.kept())?;
    }
    Ok(())
}

/// The path of a share and of parts in it.
#[tactic(auto, unfolding(crate::specs::Targets::path_text))]
pub(crate) fn path_text(alloc: Global, share: &ShareName, parts: &[Part]) -> Result<Text, NoMemory>
    ensures { IfOk result (λ t. t ≡ path_text (Inside (record { share = share.now; path = parts.now }))) }
{
    let mut text = Text::new(alloc);
    add_part(alloc, &mut text, share.bytes())?;
    add_parts(alloc, &mut text, parts)?;
    Ok(text)
}

fn separator(query: &[u8]) -> &'static str
    ensures { result.now ≡ separator query.now ∷ [] }
{
    if query.is_empty() { "?" } else { "&" }
}

/// Adds a parameter.
pub(crate) fn ask(alloc: Global, query: &mut Text, name: &str, value: &[u8]) -> Result<(), NoMemory>
    ensures { OnOk result (query.new ≡ with_parameter query.old name.now (Some value.now)) }
{
    let mark = separator(query.bytes());
    query.append(mark)?;
    query.append(name)?;
    query.append("=")?;
    let encoded = escaped(alloc, value)?;
    query.append(encoded.as_str())
}

/// Adds restype, where there is one.
pub(crate) fn ask_restype(alloc: Global, query: &mut Text, restype: Restype) -> Result<(), NoMemory>
    ensures { OnOk result (query.new ≡ with_parameter query.old (codes "restype") (restype_text restype)) }
{
    match restype {
        Restype::Share => ask(alloc, query, "restype", b"share"),
        Restype::Directory => ask(alloc, query, "restype", b"directory"),
        Restype::Absent => Ok(()),
        Restype::Other => Ok(()),
    }
}

/// Adds comp, where there is one.
pub(crate) fn ask_comp(alloc: Global, query: &mut Text, comp: Comp) -> Result<(), NoMemory>
    ensures { OnOk result (query.new ≡ with_parameter query.old (codes "comp") (comp_text comp)) }
{
    match comp {
        Comp::List => ask(alloc, query, "comp", b"list"),
        Comp::Properties => ask(alloc, query, "comp", b"properties"),
        Comp::Metadata => ask(alloc, query, "comp", b"metadata"),
        Comp::Snapshot => ask(alloc, query, "comp", b"snapshot"),
        Comp::Lease => ask(alloc, query, "comp", b"lease"),
        Comp::Range => ask(alloc, query, "comp", b"range"),
        Comp::RangeList => ask(alloc, query, "comp", b"rangelist"),
        Comp::ListHandles => ask(alloc, query, "comp", b"listhandles"),
        Comp::ForceCloseHandles => ask(alloc, query, "comp", b"forceclosehandles"),
        Comp::Absent => Ok(()),
        Comp::Other => Ok(()),
    }
}

/// Adds the moment of a snapshot, where one is named.
pub(crate) fn ask_snapshot(
    alloc: Global,
    query: &mut Text,
    moment: Option<Moment>,
) -> Result<(), NoMemory>
    ensures { OnOk result
        (query.new ≡ with_parameter query.old (codes "sharesnapshot") (option_map moment_text moment)) }
{
    match moment {
        Some(moment) => ask(alloc, query, "sharesnapshot", &moment_digits(moment)),
        None => Ok(()),
    }
}

/// A query for no page.
#[tactic(auto, unfolding(crate::specs::Targets::query_text))]
pub(crate) fn plain_query(
    alloc: Global,
    restype: Restype,
    comp: Comp,
    snap: Option<Moment>,
) -> Result<Text, NoMemory>
    ensures { IfOk result (λ q. q ≡ query_text (asks (restype_text restype) (comp_text comp)
        (option_map moment_text snap))) }
{
    let mut query = Text::new(alloc);
    ask_restype(alloc, &mut query, restype)?;
    ask_comp(alloc, &mut query, comp)?;
    ask_snapshot(alloc, &mut query, snap)?;
    Ok(query)
}

/// The target of a call that asks for no page: of a share, or of what is in it.
#[tactic(auto, unfolding(crate::specs::Spellings::target_text))]
pub(crate) fn target_text(
    alloc: Global,
    share: &ShareName,
    parts: &[Part],
    restype: Restype,
    comp: Comp,
    snap: Option<Moment>,
) -> Result<Text, NoMemory>
    ensures { IfOk result (λ t. t ≡ target_text (Inside (record { share = share.now; path = parts.now }))
        (asks (restype_text restype) (comp_text comp) (option_map moment_text snap))) }
{
    let mut text = path_text(alloc, share, parts)?;
    let query = plain_query(alloc, restype, comp, snap)?;
    text.append(query.as_str())?;
    Ok(text)
}
