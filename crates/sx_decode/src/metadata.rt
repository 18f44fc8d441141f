//! Metadata in headers.

ghost use Rattle.std.specs.Prelude.{◌≡◌, ◌++◌, ◌∷◌, [], map, drop, IfOk, OnOk, None};
ghost use Rattle.std.specs.List.{filter};
ghost use Rattle.std.specs.BTreeMap.{get_by};
ghost use Rattle.std.specs.Ordering.{nat_cmp};
ghost use Rattle.std.specs.Cmp.Lexicographic.{slice_cmp};
ghost use Rattle.sx_decode.specs.Reading.{Reads, ReadsBy};
ghost use Rattle.sx_decode.specs.Metadata.{is_meta_header, header_names, named_values, put_value, lent_values};
ghost use Rattle.sx_decode.specs.Metadata.{with_pair, pair_read, value_read, with_value, pairs_of, meta_of};

use crate::refusals::refuse_header;
use crate::unread::Unread;
use std::alloc::{AllocError, Global};
use std::collections::BTreeMap;
use sx_base::Items;
use sx_call::{Meta, MetaPair, NoMemory};
use sx_http::Header;
use sx_names::{HeaderText, MetaName};

fn is_meta_header(header: &Header) -> bool
    ensures { result ≡ is_meta_header header.now }
{
    header.name.bytes().starts_with(b"x-ms-meta-")
}

/// The headers of metadata, as they come.
fn meta_headers<'a>(alloc: Global, headers: &'a [Header]) -> Result<Vec<&'a Header>, AllocError>
    ensures { IfOk result (λ v. map (λ h. h.now) v.items ≡ filter is_meta_header headers.now) }
{
    headers.iter().filter(|h| is_meta_header(h)).collect(alloc)
}

/// Adds a value behind a comma.
fn add_value(values: &mut Items<u8>, value: &[u8]) -> Result<(), NoMemory>
    ensures { OnOk result (values.new ≡ values.old ++ 44 ∷ value.now) }
{
    values.append(b",")?;
    values.append(value)?;
    Ok(())
}

/// Puts the value of a header whose name has none.
fn put_first<'a>(
    alloc: Global,
    values: &mut BTreeMap<&'a str, Items<u8>>,
    header: &'a Header,
) -> Result<(), NoMemory>
    requires { get_by (λ n. slice_cmp nat_cmp header.now.name n.now) values.old ≡ None }
    ensures { OnOk result (lent_values values.new.entries
        ≡ put_value (lent_values values.old.entries) header.now.name header.now.value) }
{
    let value = Items::copy_of(alloc, header.value.as_slice())?;
    values.insert(header.name.as_str(), value)?;
    Ok(())
}

/// Puts the value of a header to those of its name.
fn put_value<'a>(
    alloc: Global,
    values: &mut BTreeMap<&'a str, Items<u8>>,
    header: &'a Header,
) -> Result<(), NoMemory>
    ensures { OnOk result (lent_values values.new.entries
        ≡ put_value (lent_values values.old.entries) header.now.name header.now.value) }
{
    match values.get_mut(header.name.as_str()) {
        Some(value) => add_value(value, header.value.as_slice()),
        None => put_first(alloc, values, header),
    }
}

/// The values of headers by their names, which come in order.
fn values_by_name<'a>(
    alloc: Global,
    headers: &[&'a Header],
) -> Result<BTreeMap<&'a str, Items<u8>>, NoMemory>
    ensures { IfOk result (λ values. lent_values values.entries
        ≡ named_values (map (λ h. h.now) headers.now) (header_names (map (λ h. h.now) headers.now))) }
{
    let mut values = BTreeMap::new(alloc);
    for header in headers {
        put_value(alloc, &mut values, *header)?;
    }
    Ok(values)
}

/// A header's name without `x-ms-meta-`.
#[tactic(auto, using(crate::proofs::MetaNames::short_drop))]
fn behind_prefix(name: &[u8]) -> &[u8]
    ensures { result.now ≡ drop 10 name.now }
{
    if name.len() < 10 {
        return &[];
    }
    &name[10..]
}

/// What the headers of a name say, whose values joined are this one.
fn pair_read(alloc: Global, name: &str, value: Items<u8>) -> Result<MetaPair, Unread>
    ensures { Reads result (pair_read name.now value) }
{
    let key = Items::copy_of(alloc, behind_prefix(name.as_bytes()))?;
    match MetaName::of(key) {
        None => refuse_header(alloc, name),
        Some(key) => value_read(alloc, name, key, value),
    }
}

fn value_read(
    alloc: Global,
    name: &str,
    key: MetaName,
    value: Items<u8>,
) -> Result<MetaPair, Unread>
    ensures { Reads result (value_read name.now key value) }
{
    match HeaderText::of(value) {
        None => refuse_header(alloc, name),
        Some(value) => Ok(MetaPair { name: key, value }),
    }
}

/// Adds a pair, unless there would be too many or they would be too long.
fn put_pair(alloc: Global, meta: &mut Meta, name: &str, pair: MetaPair) -> Result<(), Unread>
    ensures { ReadsBy (λ _. meta.new) result (with_pair name.now meta.old pair) }
{
    if !meta.takes(&pair) {
        return refuse_header(alloc, name);
    }
    meta.push(pair)?;
    Ok(())
}

/// Adds what the headers of a name say, whose values joined are this one.
fn put_name(alloc: Global, meta: &mut Meta, name: &str, value: Items<u8>) -> Result<(), Unread>
    ensures { ReadsBy (λ _. meta.new) result (with_value meta.old name.now value) }
{
    let pair = pair_read(alloc, name, value)?;
    put_pair(alloc, meta, name, pair)
}

/// The pairs of names with their values.
fn pairs_of(alloc: Global, values: BTreeMap<&str, Items<u8>>) -> Result<Meta, Unread>
    ensures { Reads result (pairs_of [] (lent_values values.entry.entries)) }
{
    let mut meta = Meta::new(alloc);
    for (name, value) in values {
        put_name(alloc, &mut meta, name, value)?;
    }
    Ok(meta)
}

/// The metadata that headers give, in order of name.
#[tactic(auto, unfolding(crate::specs::Metadata::meta_of))]
pub fn meta_of(alloc: Global, headers: &[Header]) -> Result<Meta, Unread>
    ensures { Reads result (meta_of headers.now) }
{
    let own = meta_headers(alloc, headers)?;
    let values = values_by_name(alloc, &own)?;
    pairs_of(alloc, values)
}
