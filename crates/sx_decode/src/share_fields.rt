//! What calls on shares alone read.

ghost use Rattle.sx_decode.specs.Reading.{Reads};
ghost use Rattle.sx_decode.specs.ShareRows.{quota_read, new_quota, set_quota, include_of};

use crate::lookup::{needed_header, one_header};
use crate::numbers::{limited, number_of};
use crate::refusals::refuse_header;
use crate::unread::Unread;
use crate::words::is_word;
use std::alloc::Global;
use sx_http::Header;
use sx_names::{MAX_QUOTA, Quota};

#[tactic(auto, unfolding(crate::specs::ShareRows::quota_read))]
fn quota_read(alloc: Global, text: &[u8]) -> Result<Quota, Unread>
    ensures { Reads result (quota_read text.now) }
{
    let gib = limited(
        alloc,
        "x-ms-share-quota",
        1,
        MAX_QUOTA as u64,
        number_of(text),
    )?;
    Ok(Quota::of(gib as u32))
}

/// x-ms-share-quota of a new share: absence means the greatest quota.
#[tactic(auto, unfolding(crate::specs::ShareRows::new_quota))]
pub fn new_quota(alloc: Global, headers: &[Header]) -> Result<Quota, Unread>
    ensures { Reads result (new_quota headers.now) }
{
    match one_header(alloc, headers, "x-ms-share-quota")? {
        None => Ok(Quota::of(MAX_QUOTA)),
        Some(text) => quota_read(alloc, text),
    }
}

/// x-ms-share-quota of a share whose quota is set.
#[tactic(auto, unfolding(crate::specs::ShareRows::set_quota))]
pub fn set_quota(alloc: Global, headers: &[Header]) -> Result<Quota, Unread>
    ensures { Reads result (set_quota headers.now) }
{
    let text = needed_header(alloc, headers, "x-ms-share-quota")?;
    quota_read(alloc, text)
}

/// x-ms-delete-snapshots: whether a share's snapshots are deleted with it.
#[tactic(auto, unfolding(crate::specs::ShareRows::include_of))]
pub fn include_of(alloc: Global, headers: &[Header]) -> Result<bool, Unread>
    ensures { Reads result (include_of headers.now) }
{
    match one_header(alloc, headers, "x-ms-delete-snapshots")? {
        None => Ok(false),
        Some(text) => {
            if is_word(b"include", text) {
                Ok(true)
            } else {
                refuse_header(alloc, "x-ms-delete-snapshots")
            }
        }
    }
}
