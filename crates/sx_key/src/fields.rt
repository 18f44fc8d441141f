//! Names with their values, and the lines in which each name stands once.

ghost use Rattle.std.specs.Prelude.{◌≡◌, ◌++◌, ◌∷◌, ◌<◌, ◌≤◌, OnOk, length, map, not, bytes_eq, position};
ghost use Rattle.std.specs.List.{flat_map, position_or_len};
ghost use Rattle.std.specs.List.Sorted.{IsPermutation, IsSortedByKey};
ghost use Rattle.sx_key.specs.Texts.{byte_order, joined_text};
ghost use Rattle.sx_key.specs.Fields.{IsGrouping, IsRun, run_line, group_lines};

use sx_base::{Items, NoMemory};

/// A name with one of its values: of a canonical header, or of a query's parameter.
#[derive(Debug, Drop)]
pub(crate) struct Field {
    /// The name.
    pub name: Items<u8>,
    /// The value.
    pub value: Items<u8>,
}

/// Puts fields in the order of their values.
pub(crate) fn sort_by_value(fields: &mut Vec<Field>)
    ensures same { IsPermutation fields.old.items fields.new.items }
    ensures ordered { IsSortedByKey (λ f. f.value) byte_order fields.new.items }
{
    fields.sort_unstable_by(|a, b| a.value.cmp(&b.value));
}

/// Puts fields in the order of their names. Those of one name stay in their order.
pub(crate) fn sort_by_name(fields: &mut Vec<Field>) -> Result<(), NoMemory>
    ensures { OnOk result (IsGrouping fields.old.items fields.new.items) }
{
    fields.sort_by(|a, b| a.name.cmp(&b.name))?;
    Ok(())
}

/// Adds a line for each name of fields that stand in the order of their names: the name, a colon, and its values with
/// commas, between two texts.
pub(crate) fn put_lines(
    out: &mut Vec<u8>,
    before: &[u8],
    fields: &[Field],
    after: &[u8],
) -> Result<(), NoMemory>
    requires { IsSortedByKey (λ f. f.name) byte_order fields.now }
    ensures { OnOk result (out.new.items ≡ out.old.items ++ group_lines before.now after.now fields.now) }
{
    let mut start = 0;
    while start < fields.len() {
        let end = start + run_length(&fields[start..]);
        put_run(out, before, &fields[start..end], after)?;
        start = end;
    }
    Ok(())
}

/// How many fields at the front have the first one's name.
fn run_length(fields: &[Field]) -> usize
    requires { 0 < length fields.now }
    ensures run { IsRun result fields.now }
    ensures within { result ≤ length fields.now }
    ensures some { 0 < result }
{
    1 + leading(&fields[1..], fields[0].name.as_slice())
}

/// How many fields at the front have a name.
fn leading(fields: &[Field], name: &[u8]) -> usize
    ensures place { result ≡ position_or_len (λ f. not (bytes_eq f.name name.now)) fields.now }
    ensures within { result ≤ length fields.now }
{
    match other_name(fields, name) {
        None => fields.len(),
        Some(at) => at,
    }
}

/// The place of the first field with another name.
fn other_name(fields: &[Field], name: &[u8]) -> Option<usize>
    ensures { result ≡ position (λ f. not (bytes_eq f.name name.now)) fields.now }
{
    fields.iter().position(|f| !(f.name.as_slice() == name))
}

/// Adds the line of fields of one name.
fn put_run(out: &mut Vec<u8>, before: &[u8], run: &[Field], after: &[u8]) -> Result<(), NoMemory>
    requires { 0 < length run.now }
    ensures { OnOk result (out.new.items ≡ out.old.items ++ run_line before.now after.now run.now) }
{
    out.extend_from_slice(before)?;
    out.extend_from_slice(run[0].name.as_slice())?;
    out.push(b':')?;
    put_values(out, run)?;
    out.extend_from_slice(after)?;
    Ok(())
}

/// Adds the values of fields in a row, with a comma between each two.
fn put_values(out: &mut Vec<u8>, run: &[Field]) -> Result<(), NoMemory>
    requires { 0 < length run.now }
    ensures { OnOk result (out.new.items ≡ out.old.items ++ joined_text (map (λ f. f.value) run.now)) }
{
    out.extend_from_slice(run[0].value.as_slice())?;
    put_behind(out, &run[1..])
}

/// Adds the values of fields, with a comma before each.
fn put_behind(out: &mut Vec<u8>, rest: &[Field]) -> Result<(), NoMemory>
    ensures { OnOk result (out.new.items ≡ out.old.items ++ flat_map (λ f. 44 ∷ f.value) rest.now) }
{
    for field in rest {
        out.push(b',')?;
        out.extend_from_slice(field.value.as_slice())?;
    }
    Ok(())
}
