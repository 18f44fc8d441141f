//! The name of a file or directory.

ghost use Rattle.std.specs.Prelude.{◌≡◌, ◌≤◌, true, false, is_none, IfOk, MatchResult, bytes_eq, chars, length};
ghost use Rattle.std.specs.List.{position};
ghost use Rattle.std.specs.Str.{is_utf8};
ghost use Rattle.sx_names.specs.declared.part.TheConstants.{MAX_PART_CHARS};
ghost use Rattle.sx_names.specs.Names.{fold, is_part, is_name_char, is_dots, has_bad_tail};
ghost use Rattle.sx_names.specs.Fault.{part_fault, fault_in, utf8_front, char_place, is_other_char};

use crate::fault::{NameFault, NameRule, Unnamed};
use crate::text::{Text, folded_text};
use std::alloc::Global;
use std::marker::Model;
use sx_base::{Items, NoMemory};

/// The most characters that the name of a file or directory has.
pub const MAX_PART_CHARS: usize = 255;

/// The bytes of a folded name.
pub type Folded = Items<u8>;

/// The name of a file or directory, as it was written and with its full case folding.
///
/// It is a text of 1 to 255 characters without control characters and without `"`, `*`, `/`, `:`, `<`, `>`, `?`, `\`
/// and `|`, which isn't `.` or `..` and doesn't end in a dot or space ("Naming and referencing shares, directories,
/// files, and metadata" of Azure Files; that characters are counted as Unicode scalar values is this profile's rule).
#[derive(Debug, Drop)]
pub struct Part {
    kept: Items<u8>,
    folded: Folded,
}

impl Model for Part {
    ghost use Rattle.std.specs.Prelude.{◌≡◌, List, ℕ, true};
    ghost use Rattle.std.specs.Str.{is_utf8};
    ghost use Rattle.sx_names.specs.Names.{fold, is_part};

    ghost Value = { List ℕ };

    ghost view = { λ n. n.kept };

    ghost invariant = { λ n. (is_part n.kept ≡ true) × (n.folded ≡ fold n.kept) × (is_utf8 n.folded ≡ true) };
}

impl Part {
    /// The first rule that bytes break as the part of a path with this number, or none where they are a name. It
    /// takes no memory.
    ///
    /// The rules are tried in the order `Utf8`, `Empty`, `Char`, `Dot`, `Tail` and `Long`. The place is that of the
    /// first character that breaks the rule: for `Utf8` the first byte at which the bytes are no UTF-8 any more, for
    /// `Tail` the last byte, for `Long` the 256th character.
    pub fn fault(number: u32, bytes: &[u8]) -> Option<NameFault>
        ensures fault { result ≡ part_fault number bytes.now }
        ensures rules { is_part bytes.now ≡ is_none (part_fault number bytes.now) }
    {
        part_fault(number, bytes)
    }

    /// Reads exactly the names of files and directories, as part 1.
    ///
    /// The fault is that of `Part::fault`.
    pub fn read(alloc: Global, bytes: &[u8]) -> Result<Part, Unnamed>
        ensures name { IfOk result (λ n. (n ≡ bytes.now) × (is_part bytes.now ≡ true)) }
        ensures fault { fault_in result ≡ part_fault 1 bytes.now }
        ensures rules { is_part bytes.now ≡ is_none (part_fault 1 bytes.now) }
    {
        Part::read_nth(alloc, 1, bytes)
    }

    /// Reads exactly the names of files and directories, as the part of a path with this number.
    ///
    /// The fault is that of `Part::fault`.
    pub fn read_nth(alloc: Global, number: u32, bytes: &[u8]) -> Result<Part, Unnamed>
        ensures name { IfOk result (λ n. (n ≡ bytes.now) × (is_part bytes.now ≡ true)) }
        ensures fault { fault_in result ≡ part_fault number bytes.now }
        ensures rules { is_part bytes.now ≡ is_none (part_fault number bytes.now) }
    {
        if let Some(fault) = part_fault(number, bytes) {
            return Err(Unnamed::Fault(fault));
        }
        Ok(Part::of_name(alloc, bytes)?)
    }

    /// The name that bytes are which break no rule.
    pub(crate) fn of_name(alloc: Global, bytes: &[u8]) -> Result<Part, NoMemory>
        requires { is_part bytes.now ≡ true }
        ensures { IfOk result (λ n. n ≡ bytes.now) }
    {
        let kept = Items::copy_of(alloc, bytes)?;
        let folded = folded_bytes(alloc, bytes)?;
        Ok(Part { kept, folded })
    }

    /// An equal name of its own.
    pub fn copy(&self) -> Result<Part, NoMemory>
        ensures { IfOk result (λ n. n ≡ self.now) }
    {
        Ok(Part {
            kept: self.kept.copy()?,
            folded: self.folded.copy()?,
        })
    }

    /// The name as it was written.
    pub fn kept(&self) -> &[u8]
        ensures value { result.now ≡ self.now }
        ensures name { is_part self.now ≡ true }
    {
        self.kept.as_slice()
    }

    /// The folded name. Names are the same where these bytes are.
    pub fn folded(&self) -> &Folded
        ensures value { result.now ≡ fold self.now }
        ensures utf8 { is_utf8 (fold self.now) ≡ true }
    {
        &self.folded
    }

    /// The folded name as a text of its own, as a marker of a listing has it.
    pub fn folded_text(&self) -> Result<Text, NoMemory>
        ensures { IfOk result (λ t. t ≡ fold self.now) }
    {
        match Text::of(self.folded.copy()?) {
            Some(text) => Ok(text),
            None => unreachable!(),
        }
    }

    /// How many characters the name has.
    pub(crate) fn count_chars(&self) -> usize
        ensures value { result ≡ length (chars self.now) }
        ensures bound { result ≤ MAX_PART_CHARS }
        ensures name { is_part self.now ≡ true }
    {
        match as_text(self.kept.as_slice()) {
            Ok(text) => count_chars(text),
            Err(_) => unreachable!(),
        }
    }

    /// Whether both are the same name, without case.
    pub fn same(&self, other: &Part) -> bool
        ensures { result ≡ bytes_eq (fold self.now) (fold other.now) }
    {
        self.folded.same(&other.folded)
    }
}

/// The first rule that bytes break as the part with this number, if they break one.
#[tactic(auto, unfolding(crate::specs::Fault::part_fault))]
pub(crate) fn part_fault(part: u32, bytes: &[u8]) -> Option<NameFault>
    ensures fault { result ≡ part_fault part bytes.now }
    ensures rules { is_part bytes.now ≡ is_none (part_fault part bytes.now) }
{
    match as_text(bytes) {
        Ok(text) => text_fault(part, text),
        Err(at) => NameFault::found(NameRule::Utf8, part, at),
    }
}

#[tactic(auto, unfolding(crate::specs::Fault::part_fault))]
fn text_fault(part: u32, text: &str) -> Option<NameFault>
    requires { is_utf8 text.now ≡ true }
    ensures { result ≡ part_fault part text.now }
{
    if text.is_empty() {
        return NameFault::found(NameRule::Empty, part, 0);
    }
    if let Some(k) = other_char(text) {
        return NameFault::found(NameRule::Char, part, char_place(text, k));
    }
    if is_dots(text.as_bytes()) {
        return NameFault::found(NameRule::Dot, part, 0);
    }
    if has_bad_tail(text.as_bytes()) {
        return NameFault::found(NameRule::Tail, part, text.len() - 1);
    }
    if MAX_PART_CHARS < count_chars(text) {
        return NameFault::found(NameRule::Long, part, char_place(text, MAX_PART_CHARS));
    }
    None
}

/// The bytes as a text, or else the place from which on they are no UTF-8.
pub(crate) fn as_text(bytes: &[u8]) -> Result<&str, usize>
    ensures { MatchResult result
        (λ text. (text.now ≡ bytes.now) × (is_utf8 bytes.now ≡ true))
        (λ at. (at ≡ utf8_front bytes.now (length bytes.now)) × (is_utf8 bytes.now ≡ false)) }
{
    match std::str::from_utf8(bytes) {
        Ok(text) => Ok(text),
        Err(error) => Err(error.valid_up_to()),
    }
}

fn folded_bytes(alloc: Global, bytes: &[u8]) -> Result<Folded, NoMemory>
    requires { is_part bytes.now ≡ true }
    ensures { IfOk result (λ folded. (folded ≡ fold bytes.now) × (is_utf8 folded ≡ true)) }
{
    match as_text(bytes) {
        Ok(text) => folded_text(alloc, text),
        Err(_) => unreachable!(),
    }
}

/// The number of the first character that no name has, counted from 0.
fn other_char(text: &str) -> Option<usize>
    ensures { result ≡ position is_other_char (chars text.now) }
{
    text.chars().position(|c| !is_name_char(c))
}

/// The byte place of a character that is counted from 0, or the text's length past its end.
fn char_place(text: &str, k: usize) -> usize
    ensures { result ≡ char_place text.now k }
{
    match text.char_indices().nth(k) {
        Some((at, _)) => at,
        None => text.len(),
    }
}

pub(crate) fn count_chars(text: &str) -> usize
    ensures value { result ≡ length (chars text.now) }
    ensures bound { result ≤ length text.now }
{
    let mut count = 0;
    for _character in text.chars() {
        count += 1;
    }
    count
}

fn is_dots(bytes: &[u8]) -> bool
    ensures { result ≡ is_dots bytes.now }
{
    bytes == b".".as_slice() || bytes == b"..".as_slice()
}

fn is_name_char(c: char) -> bool
    ensures { result ≡ is_name_char c }
{
    ' ' <= c
        && c != '\u{7f}'
        && c != '"'
        && c != '*'
        && c != '/'
        && c != ':'
        && c != '<'
        && c != '>'
        && c != '?'
        && c != '\\'
        && c != '|'
}

fn has_bad_tail(bytes: &[u8]) -> bool
    ensures { result ≡ has_bad_tail bytes.now }
{
    match bytes.last() {
        Some(last) => *last == b'.' || *last == b' ',
        None => false,
    }
}
