//! The lines that ask for a call on an open handle.
ghost use Rattle.sx_lines.specs.Reading.{Reads};
ghost use Rattle.sx_lines.specs.Lines.{close_call, read_call, write_call, resize_call, lock_in, lock_call};
ghost use Rattle.sx_lines.specs.Lines.{unlock_call, stat_call, list_call, dispose_call};

use crate::fields::{
    byte_range_in, choice_in, index_in, length_in, offset_in, page_size_in, read_range_in, write_in,
};
use crate::names::marker_in;
use crate::unread::Unread;
use crate::words::{behind_next, end_of};
use std::alloc::Global;
use sx_call::{
    Call, SmbClose, SmbDispose, SmbList, SmbLock, SmbRead, SmbResize, SmbStat, SmbUnlock, SmbWrite,
};

/// `close K`
#[tactic(auto, unfolding(crate::specs::Lines::close_call))]
pub(crate) fn close_call(k: &[u8]) -> Result<Call, Unread>
    ensures { Reads result (close_call k.now) }
{
    let index = index_in(k)?;
    end_of(behind_next(k))?;
    Ok(Call::SmbClose(SmbClose { index }))
}

/// `read K AT COUNT`
#[tactic(auto, unfolding(crate::specs::Lines::read_call))]
pub(crate) fn read_call(k: &[u8]) -> Result<Call, Unread>
    ensures { Reads result (read_call k.now) }
{
    let at = behind_next(k);
    let count = behind_next(at);
    let index = index_in(k)?;
    let from = offset_in(at)?;
    let range = read_range_in(from, count)?;
    end_of(behind_next(count))?;
    Ok(Call::SmbRead(SmbRead { index, range }))
}

/// `write K AT HEX`
#[tactic(auto, unfolding(crate::specs::Lines::write_call))]
pub(crate) fn write_call(alloc: Global, k: &[u8]) -> Result<Call, Unread>
    ensures { Reads result (write_call k.now) }
{
    let at = behind_next(k);
    let hex = behind_next(at);
    let index = index_in(k)?;
    let from = offset_in(at)?;
    let write = write_in(alloc, from, hex)?;
    end_of(behind_next(hex))?;
    Ok(Call::SmbWrite(SmbWrite { index, write }))
}

/// `resize K LENGTH`
#[tactic(auto, unfolding(crate::specs::Lines::resize_call))]
pub(crate) fn resize_call(k: &[u8]) -> Result<Call, Unread>
    ensures { Reads result (resize_call k.now) }
{
    let bytes = behind_next(k);
    let index = index_in(k)?;
    let length = length_in(bytes)?;
    end_of(behind_next(bytes))?;
    Ok(Call::SmbResize(SmbResize { index, length }))
}

/// `K AT COUNT shared|exclusive`, behind `lock` and `unlock`.
#[tactic(auto, unfolding(crate::specs::Lines::lock_in))]
fn lock_in(k: &[u8]) -> Result<SmbLock, Unread>
    ensures { Reads result (lock_in k.now) }
{
    let at = behind_next(k);
    let count = behind_next(at);
    let kind = behind_next(count);
    let index = index_in(k)?;
    let from = offset_in(at)?;
    let range = byte_range_in(from, count)?;
    let exclusive = choice_in(b"exclusive", b"shared", kind)?;
    end_of(behind_next(kind))?;
    Ok(SmbLock {
        index,
        range,
        exclusive,
    })
}

/// `lock K AT COUNT shared|exclusive`
#[tactic(auto, unfolding(crate::specs::Lines::lock_call))]
pub(crate) fn lock_call(k: &[u8]) -> Result<Call, Unread>
    ensures { Reads result (lock_call k.now) }
{
    let lock = lock_in(k)?;
    Ok(Call::SmbLock(lock))
}

/// `unlock K AT COUNT shared|exclusive`
#[tactic(auto, unfolding(crate::specs::Lines::unlock_call))]
pub(crate) fn unlock_call(k: &[u8]) -> Result<Call, Unread>
    ensures { Reads result (unlock_call k.now) }
{
    let SmbLock {
        index,
        range,
        exclusive,
    } = lock_in(k)?;
    Ok(Call::SmbUnlock(SmbUnlock {
        index,
        range,
        exclusive,
    }))
}

/// `stat K`
#[tactic(auto, unfolding(crate::specs::Lines::stat_call))]
pub(crate) fn stat_call(k: &[u8]) -> Result<Call, Unread>
    ensures { Reads result (stat_call k.now) }
{
    let index = index_in(k)?;
    end_of(behind_next(k))?;
    Ok(Call::SmbStat(SmbStat { index }))
}

/// `list K MARKER MAX`
#[tactic(auto, unfolding(crate::specs::Lines::list_call))]
pub(crate) fn list_call(alloc: Global, k: &[u8]) -> Result<Call, Unread>
    ensures { Reads result (list_call k.now) }
{
    let marker = behind_next(k);
    let size = behind_next(marker);
    let index = index_in(k)?;
    let marker = marker_in(alloc, marker)?;
    let max = page_size_in(size)?;
    end_of(behind_next(size))?;
    Ok(Call::SmbList(SmbList { index, marker, max }))
}

/// `dispose K on|off`
#[tactic(auto, unfolding(crate::specs::Lines::dispose_call))]
pub(crate) fn dispose_call(k: &[u8]) -> Result<Call, Unread>
    ensures { Reads result (dispose_call k.now) }
{
    let mark = behind_next(k);
    let index = index_in(k)?;
    let on = choice_in(b"on", b"off", mark)?;
    end_of(behind_next(mark))?;
    Ok(Call::SmbDispose(SmbDispose { index, on }))
}
