//! Copies of entries from a place on.
ghost use Rattle.std.specs.Prelude.{◌≡◌, IfOk, take, drop};
ghost use Rattle.sx_book.specs.Passes.{entries_from};

use std::alloc::Global;
use sx_base::Items;
use sx_call::Noted;
use sx_memory::NoMemory;

/// Entries from a place on, copied, at most so many. Place 0 counts as 1.
pub(crate) fn copy_from(
    alloc: Global,
    entries: &[Noted],
    from: u64,
    most: u64,
) -> Result<Items<Noted>, NoMemory>
    ensures { IfOk result (λ es. es ≡ entries_from from most entries.now) }
{
    copy_all(
        alloc,
        first_of(behind(entries, from.saturating_sub(1)), most),
    )
}

/// What is left behind the first so many.
fn behind(entries: &[Noted], skipped: u64) -> &[Noted]
    ensures { result.now ≡ drop skipped entries.now }
{
    if entries.len() as u64 <= skipped {
        return &entries[entries.len()..];
    }
    &entries[skipped as usize..]
}

/// The first entries, at most so many.
fn first_of(entries: &[Noted], most: u64) -> &[Noted]
    ensures { result.now ≡ take most entries.now }
{
    if entries.len() as u64 <= most {
        return entries;
    }
    &entries[..most as usize]
}

/// The entries, copied.
fn copy_all(alloc: Global, entries: &[Noted]) -> Result<Items<Noted>, NoMemory>
    ensures { IfOk result (λ es. es ≡ entries.now) }
{
    let mut copied = Items::new(alloc);
    for noted in entries {
        copied.push(noted.copy()?)?;
    }
    Ok(copied)
}
