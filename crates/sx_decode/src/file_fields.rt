//! What calls on files alone read.

ghost use Rattle.std.specs.Prelude.{true};
ghost use Rattle.sx_decode.specs.Reading.{Reads, ReadsBy};
ghost use Rattle.sx_decode.specs.FileRows.{needed_word, length_read, new_length, set_length};

use crate::lookup::{needed_header, one_header};
use crate::numbers::{limited, number_of};
use crate::refusals::refuse_header;
use crate::unread::Unread;
use crate::words::is_word;
use std::alloc::Global;
use sx_call::FileLength;
use sx_extent::FILE_LIMIT;
use sx_http::Header;

/// A header that has to have this word.
#[tactic(auto, unfolding(crate::specs::FileRows::needed_word))]
pub fn needed_word(alloc: Global, headers: &[Header], name: &str, word: &[u8]) -> Result<(), Unread>
    ensures { ReadsBy (λ _. true) result (needed_word name.now word.now headers.now) }
{
    let text = needed_header(alloc, headers, name)?;
    if is_word(word, text) {
        Ok(())
    } else {
        refuse_header(alloc, name)
    }
}

#[tactic(auto, unfolding(crate::specs::FileRows::length_read))]
fn length_read(alloc: Global, text: &[u8]) -> Result<FileLength, Unread>
    ensures { Reads result (length_read text.now) }
{
    let bytes = limited(alloc, "x-ms-content-length", 0, FILE_LIMIT, number_of(text))?;
    match FileLength::of(bytes) {
        Some(length) => Ok(length),
        None => unreachable!(),
    }
}

/// x-ms-content-length of a new file.
#[tactic(auto, unfolding(crate::specs::FileRows::new_length))]
pub fn new_length(alloc: Global, headers: &[Header]) -> Result<FileLength, Unread>
    ensures { Reads result (new_length headers.now) }
{
    let text = needed_header(alloc, headers, "x-ms-content-length")?;
    length_read(alloc, text)
}

/// x-ms-content-length of a file whose length is set, if it is.
#[tactic(auto, unfolding(crate::specs::FileRows::set_length))]
pub fn set_length(alloc: Global, headers: &[Header]) -> Result<Option<FileLength>, Unread>
    ensures { Reads result (set_length headers.now) }
{
    match one_header(alloc, headers, "x-ms-content-length")? {
        None => Ok(None),
        Some(text) => {
            let length = length_read(alloc, text)?;
            Ok(Some(length))
        }
    }
}
