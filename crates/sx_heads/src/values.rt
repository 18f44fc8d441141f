//! The texts of values.

ghost use Rattle.std.specs.Prelude.{◌≡◌, ◌++◌, IfOk, OnOk, decimal};
ghost use Rattle.sx_base.specs.Moment.{moment_text};
ghost use Rattle.sx_heads.specs.Values.{id_text, bytes_text, handle_text, bool_text, attributes_text};
ghost use Rattle.sx_heads.specs.Values.{shares_marker_text, at_moment, last_text};
ghost use Rattle.sx_heads.specs.Words.{with_word, with_former, with_latter, or_none};

use std::alloc::Global;
use sx_base::print_moment;
use sx_call::SharesMarker;
use sx_guard::HandleId;
use sx_lease::LeaseId;
use sx_memory::NoMemory;
use sx_moment::Moment;
use sx_names::{Attributes, ShareName, Text};
use uuid::Uuid;

/// A moment.
pub(crate) fn moment_digits(moment: Moment) -> [u8; 28]
    ensures { result ≡ moment_text moment }
{
    print_moment(moment.ticks())
}

/// A lease id: a UUID in lower case with hyphens.
#[tactic(auto, unfolding(crate::specs::Values::id_text))]
pub(crate) fn id_digits(id: LeaseId, buffer: &mut [u8; 36]) -> &[u8]
    ensures { result.now ≡ id_text id }
{
    Uuid::from_u128(id.0)
        .hyphenated()
        .encode_lower(buffer)
        .as_bytes()
}

/// A number in decimal digits.
pub(crate) fn decimal_text(alloc: Global, number: u64) -> Result<Text, NoMemory>
    ensures { IfOk result (λ t. t ≡ decimal number) }
{
    let mut text = Text::new(alloc);
    text.append_decimal(number)?;
    Ok(text)
}

fn add_last(text: &mut Text, last: Option<u64>) -> Result<(), NoMemory>
    ensures { OnOk result (text.new ≡ text.old ++ last_text last) }
{
    match last {
        Some(last) => text.append_decimal(last),
        None => Ok(()),
    }
}

/// `bytes=A-` or `bytes=A-B`.
#[tactic(auto, unfolding(crate::specs::Values::bytes_text))]
pub(crate) fn bytes_text(alloc: Global, from: u64, last: Option<u64>) -> Result<Text, NoMemory>
    ensures { IfOk result (λ t. t ≡ bytes_text (record { from = from; last = last })) }
{
    let mut text = Text::copy_of(alloc, "bytes=")?;
    text.append_decimal(from)?;
    text.append("-")?;
    add_last(&mut text, last)?;
    Ok(text)
}

/// `S.K`.
#[tactic(auto, unfolding(crate::specs::Values::handle_text))]
pub(crate) fn handle_text(alloc: Global, handle: HandleId) -> Result<Text, NoMemory>
    ensures { IfOk result (λ t. t ≡ handle_text handle) }
{
    let mut text = Text::new(alloc);
    text.append_decimal(u64::from(handle.session))?;
    text.append(".")?;
    text.append_decimal(u64::from(handle.index))?;
    Ok(text)
}

/// `true` or `false`.
pub(crate) fn bool_text(value: bool) -> &'static [u8]
    ensures { result.now ≡ bool_text value }
{
    if value { b"true" } else { b"false" }
}

fn add_word(text: &mut Text, said: bool, word: &str) -> Result<(), NoMemory>
    ensures { OnOk result (text.new ≡ with_word text.old said word.now) }
{
    if !said {
        return Ok(());
    }
    if text.bytes().is_empty() {
        return text.append(word);
    }
    text.append("|")?;
    text.append(word)
}

fn or_none(alloc: Global, text: Text) -> Result<Text, NoMemory>
    ensures { IfOk result (λ t. t ≡ or_none text) }
{
    if text.bytes().is_empty() {
        return Text::copy_of(alloc, "None");
    }
    Ok(text)
}

fn add_former(text: &mut Text, a: &Attributes) -> Result<(), NoMemory>
    ensures { OnOk result (text.new ≡ with_former text.old a.now) }
{
    add_word(text, a.read_only, "ReadOnly")?;
    add_word(text, a.hidden, "Hidden")?;
    add_word(text, a.system, "System")?;
    add_word(text, a.archive, "Archive")
}

fn add_latter(text: &mut Text, a: &Attributes) -> Result<(), NoMemory>
    ensures { OnOk result (text.new ≡ with_latter text.old a.now) }
{
    add_word(text, a.temporary, "Temporary")?;
    add_word(text, a.offline, "Offline")?;
    add_word(text, a.not_content_indexed, "NotContentIndexed")?;
    add_word(text, a.no_scrub_data, "NoScrubData")
}

/// The words of attributes with bars between them, or `None`.
#[tactic(auto, using(crate::proofs::SpelledWords::words_are))]
pub(crate) fn attributes_text(alloc: Global, a: &Attributes) -> Result<Text, NoMemory>
    ensures { IfOk result (λ t. t ≡ attributes_text a.now) }
{
    let mut text = Text::new(alloc);
    add_former(&mut text, a)?;
    add_latter(&mut text, a)?;
    add_word(&mut text, a.directory, "Directory")?;
    or_none(alloc, text)
}

fn add_moment(text: &mut Text, moment: Moment) -> Result<(), NoMemory>
    ensures { OnOk result (text.new ≡ text.old ++ moment_text moment) }
{
    let digits = moment_digits(moment);
    match std::str::from_utf8(&digits) {
        Ok(shown) => text.append(shown),
        Err(_) => unreachable!(),
    }
}

fn add_snapshot(text: &mut Text, snapshot: Option<Moment>) -> Result<(), NoMemory>
    ensures { OnOk result (text.new ≡ text.old ++ at_moment snapshot) }
{
    match snapshot {
        Some(moment) => {
            text.append("@")?;
            add_moment(text, moment)
        }
        None => Ok(()),
    }
}

fn share_text(alloc: Global, share: &ShareName) -> Result<Text, NoMemory>
    ensures { IfOk result (λ t. t ≡ share.now) }
{
    match std::str::from_utf8(share.bytes()) {
        Ok(name) => Text::copy_of(alloc, name),
        Err(_) => unreachable!(),
    }
}

/// `NAME` or `NAME@MOMENT`.
#[tactic(auto, unfolding(crate::specs::Values::shares_marker_text))]
pub(crate) fn shares_marker_text(alloc: Global, marker: &SharesMarker) -> Result<Text, NoMemory>
    ensures { IfOk result (λ t. t ≡ shares_marker_text marker.now) }
{
    let mut text = share_text(alloc, &marker.share)?;
    add_snapshot(&mut text, marker.snapshot)?;
    Ok(text)
}
