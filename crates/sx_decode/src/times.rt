//! Times of files and directories.

ghost use Rattle.sx_decode.specs.Reading.{Reads};
ghost use Rattle.sx_decode.specs.Facts.{moment_named, new_time, set_time};

use crate::lookup::one_header;
use crate::moments::moment_of;
use crate::refusals::refuse_header;
use crate::unread::Unread;
use crate::words::is_word;
use std::alloc::Global;
use sx_call::Time;
use sx_http::Header;
use sx_moment::Moment;

fn moment_named(alloc: Global, name: &str, moment: Option<Moment>) -> Result<Moment, Unread>
    ensures { Reads result (moment_named name.now moment) }
{
    match moment {
        None => refuse_header(alloc, name),
        Some(moment) => Ok(moment),
    }
}

/// A time of a new file or directory: none for `now`, which absence means.
#[tactic(auto, unfolding(crate::specs::Facts::new_time))]
pub fn new_time(alloc: Global, headers: &[Header], name: &str) -> Result<Option<Moment>, Unread>
    ensures { Reads result (new_time name.now headers.now) }
{
    match one_header(alloc, headers, name)? {
        None => Ok(None),
        Some(text) => {
            if is_word(b"now", text) {
                return Ok(None);
            }
            let moment = moment_named(alloc, name, moment_of(text))?;
            Ok(Some(moment))
        }
    }
}

/// A time that Set File Properties gives: absence means that it is kept.
#[tactic(auto, unfolding(crate::specs::Facts::set_time))]
pub fn set_time(alloc: Global, headers: &[Header], name: &str) -> Result<Time, Unread>
    ensures { Reads result (set_time name.now headers.now) }
{
    match one_header(alloc, headers, name)? {
        None => Ok(Time::Keep),
        Some(text) => {
            if is_word(b"preserve", text) {
                return Ok(Time::Keep);
            }
            if is_word(b"now", text) {
                return Ok(Time::Now);
            }
            let moment = moment_named(alloc, name, moment_of(text))?;
            Ok(Time::At(moment))
        }
    }
}
