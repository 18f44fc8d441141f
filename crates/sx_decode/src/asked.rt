//! What the query of a request asks for.

ghost use Rattle.std.specs.Prelude.{◌≡◌, IfOk, map, true};
ghost use Rattle.std.specs.List.{list_any};
ghost use Rattle.sx_decode.specs.Reading.{Reads};
ghost use Rattle.sx_decode.specs.Words.{is_word_in_blanks};
ghost use Rattle.sx_decode.specs.Asked.{snapshot_moment, snapshot_asked, or_empty, query_text};
ghost use Rattle.sx_decode.specs.Asked.{prefix_asked, limited_page, page_asked};
ghost use Rattle.sx_decode.specs.Asked.{includes_snapshots, snapshots_asked, asked_of};

use crate::moments::moment_of;
use crate::numbers::number_of;
use crate::parameters::{Parameter, one_parameter, pieces};
use crate::refusals::{refuse_query, refuse_range};
use crate::unread::Unread;
use crate::words::is_word_in_blanks;
use std::alloc::{AllocError, Global};
use sx_call::{QueryText, Text};
use sx_moment::Moment;
use sx_names::{MAX_RESULTS, PageSize};

/// What the query of a request asks for.
#[derive(Drop)]
pub struct Asked {
    /// restype, where it is there.
    pub restype: Option<Text>,
    /// comp, where it is there.
    pub comp: Option<Text>,
    /// The moment of sharesnapshot, where it is there.
    pub snapshot: Option<Moment>,
    /// prefix, or the empty text.
    pub prefix: QueryText,
    /// marker, or the empty text. Its form is that of the row.
    pub marker: Text,
    /// maxresults, or as many as a page has.
    pub max: PageSize,
    /// Whether include has `snapshots` among its words.
    pub snapshots: bool,
}

fn snapshot_moment(alloc: Global, moment: Option<Moment>) -> Result<Option<Moment>, Unread>
    ensures { Reads result (snapshot_moment moment) }
{
    match moment {
        None => refuse_query(alloc, "sharesnapshot"),
        Some(moment) => Ok(Some(moment)),
    }
}

#[tactic(auto, unfolding(crate::specs::Asked::snapshot_asked))]
fn snapshot_asked(alloc: Global, parameters: &[Parameter]) -> Result<Option<Moment>, Unread>
    ensures { Reads result (snapshot_asked parameters.now) }
{
    match one_parameter(alloc, parameters, "sharesnapshot")? {
        None => Ok(None),
        Some(text) => snapshot_moment(alloc, moment_of(text.bytes())),
    }
}

fn or_empty(alloc: Global, text: Option<Text>) -> Text
    ensures { result ≡ or_empty text }
{
    match text {
        None => Text::new(alloc),
        Some(text) => text,
    }
}

/// A text of a parameter, of at most 4,096 bytes.
#[tactic(auto, unfolding(crate::specs::Asked::query_text))]
pub fn query_text(alloc: Global, name: &str, text: Text) -> Result<QueryText, Unread>
    ensures { Reads result (query_text name.now text) }
{
    match QueryText::of(text) {
        None => refuse_query(alloc, name),
        Some(text) => Ok(text),
    }
}

#[tactic(auto, unfolding(crate::specs::Asked::prefix_asked))]
fn prefix_asked(alloc: Global, parameters: &[Parameter]) -> Result<QueryText, Unread>
    ensures { Reads result (prefix_asked parameters.now) }
{
    let text = one_parameter(alloc, parameters, "prefix")?;
    query_text(alloc, "prefix", or_empty(alloc, text))
}

#[tactic(auto, unfolding(crate::specs::Asked::limited_page))]
fn limited_page(alloc: Global, number: Option<u128>) -> Result<PageSize, Unread>
    ensures { Reads result (limited_page number) }
{
    match number {
        None => refuse_query(alloc, "maxresults"),
        Some(n) => {
            if n == 0 {
                refuse_range(alloc, "maxresults")
            } else if MAX_RESULTS as u128 <= n {
                Ok(PageSize::of(MAX_RESULTS))
            } else {
                Ok(PageSize::of(n as u32))
            }
        }
    }
}

#[tactic(auto, unfolding(crate::specs::Asked::page_asked))]
fn page_asked(alloc: Global, parameters: &[Parameter]) -> Result<PageSize, Unread>
    ensures { Reads result (page_asked parameters.now) }
{
    match one_parameter(alloc, parameters, "maxresults")? {
        None => Ok(PageSize::of(MAX_RESULTS)),
        Some(text) => limited_page(alloc, number_of(text.bytes())),
    }
}

fn has_word(word: &[u8], words: &[&[u8]]) -> bool
    ensures { result ≡ list_any (is_word_in_blanks true word.now) (map (λ w. w.now) words.now) }
{
    words.iter().any(|text| is_word_in_blanks(true, word, text))
}

#[tactic(auto, unfolding(crate::specs::Asked::includes_snapshots))]
fn includes_snapshots(alloc: Global, text: &[u8]) -> Result<bool, AllocError>
    ensures { IfOk result (λ b. b ≡ includes_snapshots text.now) }
{
    let words = pieces(alloc, text, b',')?;
    Ok(has_word(b"snapshots", &words))
}

#[tactic(auto, unfolding(crate::specs::Asked::snapshots_asked))]
fn snapshots_asked(alloc: Global, parameters: &[Parameter]) -> Result<bool, Unread>
    ensures { Reads result (snapshots_asked parameters.now) }
{
    let text = or_empty(alloc, one_parameter(alloc, parameters, "include")?);
    let snapshots = includes_snapshots(alloc, text.bytes())?;
    Ok(snapshots)
}

/// The known parameters of a query, each read in the order restype, comp, sharesnapshot, prefix, marker, maxresults,
/// include.
#[tactic(auto, unfolding(crate::specs::Asked::asked_of))]
pub fn asked_of(alloc: Global, parameters: &[Parameter]) -> Result<Asked, Unread>
    ensures { Reads result (asked_of parameters.now) }
{
    let restype = one_parameter(alloc, parameters, "restype")?;
    let comp = one_parameter(alloc, parameters, "comp")?;
    let snapshot = snapshot_asked(alloc, parameters)?;
    let prefix = prefix_asked(alloc, parameters)?;
    let marker = one_parameter(alloc, parameters, "marker")?;
    let max = page_asked(alloc, parameters)?;
    let snapshots = snapshots_asked(alloc, parameters)?;
    let marker = or_empty(alloc, marker);
    Ok(Asked {
        restype,
        comp,
        snapshot,
        prefix,
        marker,
        max,
        snapshots,
    })
}
