//! What the path of a target names.

ghost use Rattle.std.specs.Prelude.{◌≡◌, Err, Ok, map};
ghost use Rattle.sx_decode.specs.Reading.{Reads, each_read};
ghost use Rattle.sx_decode.specs.Targets.{segment_of, share_of, part_of, path_of, place_of_segments};
ghost use Rattle.sx_decode.specs.Targets.{place_behind_slash, place_of, without_slash, below_root};
ghost use Rattle.sx_call.specs.declared.refusals.Syntax.TheVariants.{Uri};

use crate::escapes::{decoded, first_bad};
use crate::parameters::pieces;
use crate::refusals::{no_call, refuse_name};
use crate::unread::Unread;
use std::alloc::Global;
use sx_base::Items;
use sx_call::{NamedTarget, Syntax, Target};
use sx_names::{NameRule, Part, Path, ShareName, Unnamed};

/// What the path of a target names.
#[derive(Drop)]
pub enum Place {
    /// The account: the path is `/`.
    Account,
    /// A share, or what is in it.
    Inside(Target),
}

/// What a segment of the path encodes.
fn segment_of(alloc: Global, part: u32, text: &[u8]) -> Result<Items<u8>, Unread>
    ensures { Reads result (segment_of part text.now) }
{
    match first_bad(text) {
        Some(at) => refuse_escape(part, at as u64),
        None => Ok(Items::of(decoded(alloc, text)?)),
    }
}

fn refuse_escape<T>(part: u32, at: u64) -> Result<T, Unread>
    ensures { Reads result (Err (Uri NameRule.Utf8 part at)) }
{
    Err(Unread::Syntax(Syntax::Uri {
        rule: NameRule::Utf8,
        part,
        at,
    }))
}

#[tactic(auto, unfolding(crate::specs::Targets::share_of))]
fn share_of(alloc: Global, text: &[u8]) -> Result<ShareName, Unread>
    ensures { Reads result (share_of text.now) }
{
    let name = segment_of(alloc, 0, text)?;
    match ShareName::read(alloc, name.as_slice()) {
        Ok(share) => Ok(share),
        Err(Unnamed::Fault(fault)) => refuse_name(fault),
        Err(Unnamed::NoMemory) => Err(Unread::NoMemory),
    }
}

fn part_of(alloc: Global, part: u32, text: &[u8]) -> Result<Part, Unread>
    ensures { Reads result (part_of part text.now) }
{
    let name = segment_of(alloc, part, text)?;
    match Part::read_nth(alloc, part, name.as_slice()) {
        Ok(part) => Ok(part),
        Err(Unnamed::Fault(fault)) => refuse_name(fault),
        Err(Unnamed::NoMemory) => Err(Unread::NoMemory),
    }
}

fn parts_of(alloc: Global, segments: &[&[u8]]) -> Result<Items<Part>, Unread>
    ensures { Reads result (each_read part_of 1 (map (λ s. s.now) segments.now)) }
{
    let mut parts = Items::new(alloc);
    let mut number: u32 = 1;
    for segment in segments {
        let part = part_of(alloc, number, segment)?;
        parts.push(part)?;
        number = number.saturating_add(1);
    }
    Ok(parts)
}

#[tactic(auto, unfolding(crate::specs::Targets::path_of))]
fn path_of(alloc: Global, segments: &[&[u8]]) -> Result<Path, Unread>
    ensures { Reads result (path_of (map (λ s. s.now) segments.now)) }
{
    let parts = parts_of(alloc, segments)?;
    match Path::of_parts(parts) {
        Ok(path) => Ok(path),
        Err(fault) => refuse_name(fault),
    }
}

#[tactic(auto, unfolding(crate::specs::Targets::place_of_segments))]
fn place_of_segments(alloc: Global, segments: &[&[u8]]) -> Result<Place, Unread>
    ensures { Reads result (place_of_segments (map (λ s. s.now) segments.now)) }
{
    match segments {
        [] => Ok(Place::Account),
        [first, rest @ ..] => {
            let share = share_of(alloc, first)?;
            let path = path_of(alloc, rest)?;
            Ok(Place::Inside(Target { share, path }))
        }
    }
}

fn without_slash(text: &[u8]) -> &[u8]
    ensures { result.now ≡ without_slash text.now }
{
    match text {
        [front @ .., b'/'] => front,
        _ => text,
    }
}

#[tactic(auto, unfolding(crate::specs::Targets::place_behind_slash))]
fn place_behind_slash(alloc: Global, text: &[u8]) -> Result<Place, Unread>
    ensures { Reads result (place_behind_slash text.now) }
{
    if text.is_empty() {
        return Ok(Place::Account);
    }
    let segments = pieces(alloc, text, b'/')?;
    place_of_segments(alloc, &segments)
}

/// What the path of a target names, segment by segment.
#[tactic(auto, unfolding(crate::specs::Targets::place_of))]
pub fn place_of(alloc: Global, path: &[u8]) -> Result<Place, Unread>
    ensures { Reads result (place_of path.now) }
{
    match path {
        [b'/', text @ ..] => place_behind_slash(alloc, without_slash(text)),
        _ => refuse_empty(),
    }
}

fn refuse_empty<T>() -> Result<T, Unread>
    ensures { Reads result (Err (Uri NameRule.Empty 0 0)) }
{
    Err(Unread::Syntax(Syntax::Uri {
        rule: NameRule::Empty,
        part: 0,
        at: 0,
    }))
}

/// The target of a call that needs a name.
#[tactic(auto, unfolding(crate::specs::Targets::below_root))]
pub fn below_root(at: Target) -> Result<NamedTarget, Unread>
    ensures { Reads result (below_root at) }
{
    match NamedTarget::of(at) {
        Some(at) => Ok(at),
        None => no_call(),
    }
}
