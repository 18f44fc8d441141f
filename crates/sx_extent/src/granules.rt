//! The map of a file's marked granules, and what reads and changes it.
//!
//! A granule has an entry exactly where it is marked, so a file of 4 TiB with one marked granule has one entry.
//! Each call looks up the granules of its interval, or those that have an entry there, so it takes time in proportion
//! to these and to the logarithm of the number of entries, and none of it for the file's length.
ghost use Rattle.std.specs.Prelude.{◌≡◌, ◌+◌, ◌-◌, ◌*◌, ◌/◌, ◌%◌, ◌≤◌, ◌<◌, ℕ, true, false, not, ◌&&◌};
ghost use Rattle.std.specs.Prelude.{if◌then◌else◌, nat_lt, ◌==◌, replicate, length, filter, map, take, drop};
ghost use Rattle.std.specs.Prelude.{◌++◌, option_map, IfOk, IfSome, IfNone, OnOk, OnErr, None, Some};
ghost use Rattle.std.specs.List.{range_with_len, list_any, All};
ghost use Rattle.sx_extent.specs.Ranges.{covers, touches, most_bytes, joined, part_of_granule};
ghost use Rattle.sx_extent.specs.Granules.{granule_at, has_granule, byte_at, bytes_from, IsSized, IsWritten, IsUpdated};
ghost use Rattle.sx_extent.specs.Granules.{IsMarked, IsErased, IsKept, IsPut, IsSame, is_between};
ghost use Rattle.std.specs.Ordering.{nat_cmp};
ghost use Rattle.std.specs.Map.{keys_of};
ghost use Rattle.std.specs.BTreeMap.{IsOrdered};
ghost use Rattle.std.specs.BTreeMap.Range.{entries_between};
ghost use Rattle.std.specs.declared.ops.Bound.TheVariants.{Included, Excluded};

use crate::spans::{Span, Spans};
use std::alloc::{AllocError, Global};
use std::collections::BTreeMap;
use sx_memory::NoMemory;

/// The most bytes that a file has, 4 TiB: the File service's greatest size of a file.
pub const FILE_LIMIT: u64 = 4_398_046_511_104;

/// How many bytes a granule has, as a length.
pub const GRANULE_SIZE: usize = 512;

/// How many bytes a granule has, as a number of places.
pub(crate) const GRANULE: u64 = GRANULE_SIZE as u64;

/// The bytes of one marked granule.
type Granule = [u8; GRANULE_SIZE];

/// The marked granules of a file by their numbers.
pub(crate) type Granules = BTreeMap<u64, Granule>;

/// The number past the granules that an interval touches, of which the first is `from / GRANULE`.
pub(crate) fn past_of(from: u64, end: u64) -> u64
    requires { from ≤ end }
    ensures { result ≡ (if nat_lt from end then (end + 511) / 512 else from / 512) }
{
    if from < end {
        (end - 1) / GRANULE + 1
    } else {
        from / GRANULE
    }
}

/// Whether a granule has an entry.
#[tactic(auto, unfolding(crate::specs::Granules::has_granule))]
fn has(granules: &Granules, g: u64) -> bool
    ensures { result ≡ has_granule granules.now.entries g }
{
    granules.contains_key(&g)
}

/// Adds a granule of zeros.
fn add_one(granules: &mut Granules, g: u64) -> Result<(), NoMemory>
    ensures ok { OnOk result (IsPut granules.old.entries granules.new.entries g (Some (replicate 512 0))) }
    ensures err { OnErr result (granules.new.entries ≡ granules.old.entries) }
{
    match granules.insert(g, [0; GRANULE_SIZE]) {
        Ok(_) => Ok(()),
        Err(_) => Err(NoMemory),
    }
}

/// Removes the entry of a granule.
fn remove_one(granules: &mut Granules, g: u64)
    ensures { IsPut granules.old.entries granules.new.entries g None }
{
    granules.remove(&g);
}

/// Replaces the bytes of a granule that has an entry, from `offset` on.
fn overwrite(granules: &mut Granules, g: u64, offset: usize, bytes: &[u8])
    requires fits { offset + length bytes.now ≤ 512 }
    requires sized { IsSized granules.old.entries }
    requires marked { has_granule granules.old.entries g ≡ true }
    ensures { IsPut granules.old.entries granules.new.entries g
        (option_map (λ kept. take offset kept ++ bytes.now ++ drop (offset + length bytes.now) kept)
        (granule_at granules.old.entries g)) }
{
    if let Some(granule) = granules.get_mut(&g) {
        granule[offset..offset + bytes.len()].copy_from_slice(bytes);
    }
}

/// Reads the bytes from `at` on, all of one granule.
fn read_part(granules: &Granules, at: u64, into: &mut [u8])
    requires sized { IsSized granules.now.entries }
    requires fits { at % 512 + length into.old ≤ 512 }
    ensures { into.new ≡ bytes_from granules.now.entries at (length into.old) }
{
    let offset = (at % GRANULE) as usize;
    match granules.get(&(at / GRANULE)) {
        Some(granule) => into.copy_from_slice(&granule[offset..offset + into.len()]),
        None => into.fill(0),
    }
}

/// Reads the bytes from `at` on.
pub(crate) fn read(granules: &Granules, at: u64, into: &mut [u8])
    requires sized { IsSized granules.now.entries }
    requires limit { at + length into.old ≤ most_bytes }
    ensures { into.new ≡ bytes_from granules.now.entries at (length into.old) }
{
    let mut done = 0;
    while done < into.len() {
        let place = at + done as u64;
        let count = (GRANULE_SIZE - (place % GRANULE) as usize).min(into.len() - done);
        read_part(granules, place, &mut into[done..done + count]);
        done += count;
    }
}

/// Removes granules.
fn remove_all(granules: &mut Granules, numbers: &[u64])
    ensures { (q : ℕ) → granule_at granules.new.entries q
        ≡ (if list_any (λ g. g == q) numbers.now then None else granule_at granules.old.entries q) }
{
    for g in numbers {
        remove_one(granules, *g);
    }
}

/// Adds granules of zeros, all or none.
fn add_all(granules: &mut Granules, numbers: &[u64]) -> Result<(), NoMemory>
    requires { All (λ g. has_granule granules.old.entries g ≡ false) numbers.now }
    ensures ok { OnOk result ((q : ℕ) → granule_at granules.new.entries q
        ≡ (if list_any (λ g. g == q) numbers.now then Some (replicate 512 0) else granule_at granules.old.entries q)) }
    ensures err { OnErr result (IsSame granules.old.entries granules.new.entries) }
{
    for (i, g) in numbers.iter().enumerate() {
        match add_one(granules, *g) {
            Ok(()) => {}
            Err(failed) => {
                remove_all(granules, &numbers[..i]);
                return Err(failed);
            }
        }
    }
    Ok(())
}

/// The granules from one to before another that have no entry.
fn missing_between(
    granules: &Granules,
    alloc: Global,
    first: u64,
    past: u64,
) -> Result<Vec<u64>, AllocError>
    ensures { IfOk result (λ numbers. numbers.items
        ≡ filter (λ g. not (has_granule granules.now.entries g)) (range_with_len first (past - first))) }
{
    (first..past).filter(|g| !has(granules, *g)).collect(alloc)
}

/// Marks each granule that the interval touches.
pub(crate) fn mark(
    granules: &mut Granules,
    alloc: Global,
    from: u64,
    end: u64,
) -> Result<(), NoMemory>
    requires sized { IsSized granules.old.entries }
    requires order { from ≤ end }
    ensures ok { OnOk result (IsMarked granules.old.entries granules.new.entries from end) }
    ensures err { OnErr result (IsSame granules.old.entries granules.new.entries) }
    ensures sized { IsSized granules.new.entries }
{
    let missing = missing_between(granules, alloc, from / GRANULE, past_of(from, end))?;
    add_all(granules, &missing)
}

/// Writes bytes from `at` on, all of one granule that has an entry.
fn write_part(granules: &mut Granules, at: u64, bytes: &[u8])
    requires sized { IsSized granules.old.entries }
    requires fits { at % 512 + length bytes.now ≤ 512 }
    requires marked { has_granule granules.old.entries (at / 512) ≡ true }
    ensures written { IsWritten granules.old.entries granules.new.entries at bytes.now }
    ensures sized { IsSized granules.new.entries }
{
    overwrite(granules, at / GRANULE, (at % GRANULE) as usize, bytes);
}

/// Writes bytes from `at` on, in granules that have entries.
pub(crate) fn write(granules: &mut Granules, at: u64, bytes: &[u8])
    requires sized { IsSized granules.old.entries }
    requires limit { at + length bytes.now ≤ most_bytes }
    requires marked { (g : ℕ) → touches at (at + length bytes.now) g ≡ true
        → has_granule granules.old.entries g ≡ true }
    ensures written { IsWritten granules.old.entries granules.new.entries at bytes.now }
    ensures sized { IsSized granules.new.entries }
{
    let mut done = 0;
    while done < bytes.len() {
        let place = at + done as u64;
        let count = (GRANULE_SIZE - (place % GRANULE) as usize).min(bytes.len() - done);
        write_part(granules, place, &bytes[done..done + count]);
        done += count;
    }
}

/// Marks each granule that the bytes touch, and writes them from `at` on: all or nothing.
pub(crate) fn put(
    granules: &mut Granules,
    alloc: Global,
    at: u64,
    bytes: &[u8],
) -> Result<(), NoMemory>
    requires sized { IsSized granules.old.entries }
    requires limit { at + length bytes.now ≤ most_bytes }
    ensures ok { OnOk result (IsUpdated granules.old.entries granules.new.entries at bytes.now) }
    ensures err { OnErr result (IsSame granules.old.entries granules.new.entries) }
    ensures sized { IsSized granules.new.entries }
{
    mark(granules, alloc, at, at + bytes.len() as u64)?;
    write(granules, at, bytes);
    Ok(())
}

/// The first granule with an entry from one to before another.
fn first_between(granules: &Granules, first: u64, past: u64) -> Option<u64>
    requires { first ≤ past }
    ensures found { IfSome result (λ g. (first ≤ g) × (g < past) × (has_granule granules.now.entries g ≡ true)) }
    ensures least { IfSome result (λ g. (q : ℕ) → first ≤ q → q < g → has_granule granules.now.entries q ≡ false) }
    ensures none { IfNone result ((q : ℕ) → first ≤ q → q < past → has_granule granules.now.entries q ≡ false) }
{
    let (g, _) = granules.range(first..past).next()?;
    Some(*g)
}

/// Whether each byte of granule `g` that lies below the length lies in the interval.
#[tactic(auto, unfolding(crate::specs::Ranges::covers))]
fn is_covered(g: u64, from: u64, end: u64, length: u64) -> bool
    requires { 512 * g < most_bytes }
    ensures { result ≡ covers from end length g }
{
    let start = g * GRANULE;
    from <= start && length.min(start + GRANULE) <= end
}

/// Erases what lies in the interval and in granule `g`, and removes the entry if the interval covers it.
#[tactic(auto, using(crate::proofs::GranuleSteps::touches_true))]
fn erase_in(granules: &mut Granules, g: u64, from: u64, end: u64, length: u64)
    requires sized { IsSized granules.old.entries }
    requires zeros { (k : ℕ) → length ≤ k → byte_at granules.old.entries k ≡ 0 }
    requires limit { end ≤ most_bytes }
    requires marked { has_granule granules.old.entries g ≡ true }
    requires touched { touches from end g ≡ true }
    ensures marks { (q : ℕ) → has_granule granules.new.entries q
        ≡ (has_granule granules.old.entries q && not (q == g && covers from end length q)) }
    ensures bytes { (k : ℕ) → byte_at granules.new.entries k
        ≡ (if k / 512 == g && is_between from end k then 0 else byte_at granules.old.entries k) }
    ensures sized { IsSized granules.new.entries }
{
    if is_covered(g, from, end, length) {
        remove_one(granules, g);
    } else {
        let start = g * GRANULE;
        let low = from.max(start);
        let count = (end.min(start + GRANULE) - low) as usize;
        write_part(granules, low, &[0; GRANULE_SIZE][..count]);
    }
}

/// Erases the interval in a file of a length.
pub(crate) fn erase(granules: &mut Granules, from: u64, end: u64, length: u64)
    requires kept { IsKept length granules.old.entries }
    requires order { from ≤ end }
    requires limit { end ≤ length }
    ensures erased { IsErased granules.old.entries granules.new.entries from end length }
    ensures sized { IsSized granules.new.entries }
{
    let past = past_of(from, end);
    let mut next = from / GRANULE;
    while let Some(g) = first_between(granules, next, past) {
        erase_in(granules, g, from, end, length);
        next = g + 1;
    }
}

/// What lies both in granule `g` and in the interval.
#[tactic(auto, using(crate::proofs::GranuleSteps::touches_true))]
fn part_of(g: u64, from: u64, end: u64) -> Span
    requires touched { touches from end g ≡ true }
    requires limit { end ≤ most_bytes }
    ensures { result ≡ part_of_granule from end g }
{
    let start = g * GRANULE;
    Span {
        from: from.max(start),
        end: end.min(start + GRANULE),
    }
}

/// The largest runs of granules with entries, cut to the interval.
pub(crate) fn runs(
    granules: &Granules,
    alloc: Global,
    from: u64,
    end: u64,
) -> Result<Spans, NoMemory>
    requires order { from ≤ end }
    requires limit { end ≤ most_bytes }
    ensures ordered { IsOrdered nat_cmp granules.now }
    ensures ok { let past = (if nat_lt from end then (end + 511) / 512 else from / 512) in
        IfOk result (λ spans. spans ≡ joined (map (part_of_granule from end)
        (keys_of (entries_between nat_cmp (Included (from / 512)) (Excluded past) granules.now.entries)))) }
{
    let mut spans = Spans::new(alloc);
    for (g, _) in granules.range(from / GRANULE..past_of(from, end)) {
        spans.join(part_of(*g, from, end))?;
    }
    Ok(spans)
}

/// How many granules from one to before another have an entry.
pub(crate) fn count_between(granules: &Granules, first: u64, past: u64) -> u64
    requires { first ≤ past }
    ensures count { result ≡ length (entries_between nat_cmp (Included first) (Excluded past) granules.now.entries) }
    ensures ordered { IsOrdered nat_cmp granules.now }
{
    granules.range(first..past).count() as u64
}

/// A copy of the granules from one to before another.
pub(crate) fn copy_between(
    granules: &Granules,
    alloc: Global,
    first: u64,
    past: u64,
) -> Result<Granules, NoMemory>
    requires { first ≤ past }
    ensures { IfOk result (λ copy. (q : ℕ) → granule_at copy.entries q
        ≡ (if is_between first past q then granule_at granules.now.entries q else None)) }
{
    match granules
        .range(first..past)
        .map(|(g, bytes)| (*g, *bytes))
        .collect(alloc)
    {
        Ok(copy) => Ok(copy),
        Err(_) => Err(NoMemory),
    }
}
