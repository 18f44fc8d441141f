//! A path from the root of a share.

ghost use Rattle.std.specs.Prelude.{◌≡◌, ◌∷◌, ◌≤◌, ◌-◌, [], true, false, None, is_none, nat_lt, IfOk, length};
ghost use Rattle.std.specs.Prelude.{slice_get};
ghost use Rattle.std.specs.List.{list_all};
ghost use Rattle.std.specs.Option.{option_copied};
ghost use Rattle.sx_names.specs.Names.{is_part, is_path, path_length};
ghost use Rattle.sx_names.specs.declared.path.TheConstants.{MAX_PARTS, MAX_PATH_CHARS};
ghost use Rattle.sx_names.specs.Fault.{fault_in, parts_fault, path_fault, whole_fault, path_of};

use crate::fault::{NameFault, NameRule, Unnamed};
use crate::part::{Part, count_chars, part_fault};
use crate::text::Text;
use std::alloc::Global;
use std::marker::Model;
use sx_base::{Items, NoMemory};

/// The most parts that a path has.
pub const MAX_PARTS: usize = 250;

/// The most characters that a path has, with the slashes between its parts.
pub const MAX_PATH_CHARS: usize = 2048;

/// A path from the root of a share: at most 250 parts with at most 2,048 characters, the slashes between them
/// counted. The empty path is the root.
#[derive(Debug, Drop)]
pub struct Path {
    parts: Items<Part>,
}

impl Model for Path {
    ghost use Rattle.std.specs.Prelude.{◌≡◌, List, ℕ, true};
    ghost use Rattle.sx_names.specs.Names.{is_path};

    ghost Value = { List (List ℕ) };

    ghost view = { λ p. p.parts };

    ghost invariant = { λ p. is_path p.parts ≡ true };
}

impl Path {
    /// Reads exactly the paths, part by part.
    ///
    /// The fault is the first rule that is broken: that of the first part that is no name, with its number from 1 on,
    /// and else `Deep` and then `PathLong`, both with part 0 and place 0.
    pub fn read(alloc: Global, parts: &[Text]) -> Result<Path, Unnamed>
        ensures path { IfOk result (λ p. (p ≡ parts.now) × (is_path parts.now ≡ true)) }
        ensures fault { fault_in result ≡ path_fault parts.now }
        ensures rules { is_path parts.now ≡ is_none (path_fault parts.now) }
    {
        if let Some(fault) = path_fault(parts) {
            return Err(Unnamed::Fault(fault));
        }
        let parts = named_parts(alloc, parts)?;
        Ok(Path { parts })
    }

    /// The path of these parts, where there are not too many and they are not too long. It takes no memory.
    ///
    /// The fault is `Deep` or else `PathLong`, both with part 0 and place 0.
    pub fn of_parts(parts: Items<Part>) -> Result<Path, NameFault>
        ensures path { result ≡ path_of parts }
        ensures rules { is_path parts ≡ is_none (whole_fault parts) }
    {
        if let Some(fault) = whole_fault(parts.as_slice()) {
            return Err(fault);
        }
        Ok(Path { parts })
    }

    /// The path of one part.
    pub fn of_part(alloc: Global, part: Part) -> Result<Path, NoMemory>
        ensures { IfOk result (λ p. p ≡ part ∷ []) }
    {
        let mut parts = Items::new(alloc);
        parts.push(part)?;
        Ok(Path { parts })
    }

    /// The parts, from the root on.
    pub fn parts(&self) -> &[Part]
        ensures value { result.now ≡ self.now }
        ensures path { is_path self.now ≡ true }
        ensures short { length self.now ≤ MAX_PARTS }
    {
        self.parts.as_slice()
    }

    /// The last part, if there is one.
    pub fn name(&self) -> Option<&Part>
        ensures { option_copied result ≡ slice_get self.now (length self.now - 1) }
    {
        let parts = self.parts.as_slice();
        if parts.is_empty() {
            return None;
        }
        parts.get(parts.len() - 1)
    }

    /// An equal path of its own.
    pub fn copy(&self) -> Result<Path, NoMemory>
        ensures { IfOk result (λ p. p ≡ self.now) }
    {
        let mut parts = Items::new(self.parts.allocator());
        for part in self.parts.as_slice() {
            parts.push(part.copy()?)?;
        }
        Ok(Path { parts })
    }
}

/// The first rule that a path breaks, if it breaks one.
#[tactic(auto, unfolding(crate::specs::Fault::path_fault))]
fn path_fault(texts: &[Text]) -> Option<NameFault>
    ensures fault { result ≡ path_fault texts.now }
    ensures rules { is_path texts.now ≡ is_none (path_fault texts.now) }
{
    if let Some(fault) = parts_fault(texts) {
        return Some(fault);
    }
    if MAX_PARTS < texts.len() {
        return NameFault::found(NameRule::Deep, 0, 0);
    }
    if are_long_texts(texts) {
        return NameFault::found(NameRule::PathLong, 0, 0);
    }
    None
}

/// The first rule that parts break as a path, if they break one.
#[tactic(auto, unfolding(crate::specs::Fault::whole_fault))]
fn whole_fault(parts: &[Part]) -> Option<NameFault>
    ensures fault { result ≡ whole_fault parts.now }
    ensures rules { is_path parts.now ≡ is_none (whole_fault parts.now) }
    ensures names { result ≡ None → list_all is_part parts.now ≡ true }
{
    if MAX_PARTS < parts.len() {
        return NameFault::found(NameRule::Deep, 0, 0);
    }
    if are_long_parts(parts) {
        return NameFault::found(NameRule::PathLong, 0, 0);
    }
    None
}

fn parts_fault(parts: &[Text]) -> Option<NameFault>
    ensures { result ≡ parts_fault 1 parts.now }
{
    let mut number: u32 = 1;
    for part in parts {
        if let Some(fault) = part_fault(number, part.bytes()) {
            return Some(fault);
        }
        number = number.saturating_add(1);
    }
    None
}

/// Whether texts have more than 2,048 characters, with the slashes between them.
fn are_long_texts(texts: &[Text]) -> bool
    requires { length texts.now ≤ MAX_PARTS }
    ensures { result ≡ nat_lt MAX_PATH_CHARS (path_length texts.now) }
{
    let mut length = slashes_between(texts.len());
    for text in texts {
        length += count_chars(text.as_str());
        if MAX_PATH_CHARS < length {
            return true;
        }
    }
    false
}

/// Whether parts have more than 2,048 characters, with the slashes between them.
fn are_long_parts(parts: &[Part]) -> bool
    requires { length parts.now ≤ MAX_PARTS }
    ensures long { result ≡ nat_lt MAX_PATH_CHARS (path_length parts.now) }
    ensures names { result ≡ false → list_all is_part parts.now ≡ true }
{
    let mut length = slashes_between(parts.len());
    for part in parts {
        length += part.count_chars();
        if MAX_PATH_CHARS < length {
            return true;
        }
    }
    false
}

/// How many slashes stand between so many parts.
fn slashes_between(parts: usize) -> usize
    ensures { result ≡ parts - 1 }
{
    parts.saturating_sub(1)
}

fn named_parts(alloc: Global, texts: &[Text]) -> Result<Items<Part>, NoMemory>
    requires { list_all is_part texts.now ≡ true }
    ensures { IfOk result (λ parts. parts ≡ texts.now) }
{
    let mut parts = Items::new(alloc);
    for text in texts {
        parts.push(Part::of_name(alloc, text.bytes())?)?;
    }
    Ok(parts)
}
