//! What a call does to the body of a file, as data.
ghost use Rattle.std.specs.Prelude.{◌≡◌, ◌+◌, nat_le, length, OnOk, OnErr};
ghost use Rattle.sx_tree.specs.Body.{body_after, clear_within, resize_within, resized_by, update_within, write_within};
ghost use Rattle.sx_tree.specs.Tree.{with_body};

use crate::node::{FileBody, Kind};
use sx_extent::{FILE_LIMIT, Piece, Ranges};
use sx_memory::NoMemory;
use sx_names::Content;

/// What a call does to the body of a file. Where the bytes or the interval don't lie in the file, and where a length
/// passes 4 TiB, the file stays as it is.
#[derive(Debug, Drop)]
pub enum BodyChange {
    /// The piece is written at a place, inside the file.
    Update {
        /// The place of the first byte.
        at: u64,
        /// The bytes.
        piece: Piece,
    },
    /// The piece is written at a place, and the file is made longer where it ends before the piece does.
    Write {
        /// The place of the first byte.
        at: u64,
        /// The bytes.
        piece: Piece,
    },
    /// The bytes from one place to before another are cleared.
    Clear {
        /// The place of the first byte.
        from: u64,
        /// The place past the last byte.
        end: u64,
    },
    /// The file gets a length, in bytes.
    Resize(u64),
    /// The file gets content headers.
    Content(Content),
    /// The file gets the length that is given, if one is, and content headers.
    Reshape {
        /// The length, in bytes.
        length: Option<u64>,
        /// The content headers.
        content: Content,
    },
    /// The file gets another body.
    Replace(FileBody),
}

impl Kind {
    /// Changes the body of a file. A directory stays as it is.
    pub(crate) fn change(&mut self, change: BodyChange) -> Result<(), NoMemory>
        ensures ok { OnOk result (self.new ≡ with_body (body_after change) self.old) }
        ensures err { OnErr result (self.new ≡ self.old) }
    {
        match self {
            Kind::Directory => Ok(()),
            Kind::File(body) => body.change(change),
        }
    }
}

impl FileBody {
    /// Changes the body.
    pub fn change(&mut self, change: BodyChange) -> Result<(), NoMemory>
        ensures ok { OnOk result (self.new ≡ body_after change self.old) }
        ensures err { OnErr result (self.new ≡ self.old) }
    {
        match change {
            BodyChange::Update { at, piece } => update(&mut self.ranges, at, &piece),
            BodyChange::Write { at, piece } => write(&mut self.ranges, at, &piece),
            BodyChange::Clear { from, end } => clear(&mut self.ranges, from, end),
            BodyChange::Resize(length) => resize(&mut self.ranges, length),
            BodyChange::Content(content) => {
                self.content = content;
                Ok(())
            }
            BodyChange::Reshape { length, content } => {
                match resize_by(&mut self.ranges, length) {
                    Ok(()) => {
                        self.content = content;
                        Ok(())
                    }
                    Err(failed) => Err(failed),
                }
            }
            BodyChange::Replace(body) => {
                *self = body;
                Ok(())
            }
        }
    }
}

/// Whether the bytes of a piece from a place on end at a limit or before it.
fn ends_within(at: u64, piece: &Piece, limit: u64) -> bool
    ensures { result ≡ nat_le (at + length piece.now) limit }
{
    let length = piece.bytes().len() as u64;
    length <= limit && at <= limit - length
}

/// Writes a piece that lies in the file.
#[tactic(auto, unfolding(crate::specs::Body::update_within))]
fn update(ranges: &mut Ranges, at: u64, piece: &Piece) -> Result<(), NoMemory>
    ensures ok { OnOk result (ranges.new ≡ update_within at piece.now ranges.old) }
    ensures err { OnErr result (ranges.new ≡ ranges.old) }
{
    let length = ranges.length();
    if !ends_within(at, piece, length) {
        return Ok(());
    }
    ranges.update(at, piece)
}

/// Writes a piece that ends at the greatest length of a file or before it.
#[tactic(auto, unfolding(crate::specs::Body::write_within))]
fn write(ranges: &mut Ranges, at: u64, piece: &Piece) -> Result<(), NoMemory>
    ensures ok { OnOk result (ranges.new ≡ write_within at piece.now ranges.old) }
    ensures err { OnErr result (ranges.new ≡ ranges.old) }
{
    if !ends_within(at, piece, FILE_LIMIT) {
        return Ok(());
    }
    ranges.write(at, piece)
}

/// Clears an interval that lies in the file.
#[tactic(auto, unfolding(crate::specs::Body::clear_within))]
fn clear(ranges: &mut Ranges, from: u64, end: u64) -> Result<(), NoMemory>
    ensures ok { OnOk result (ranges.new ≡ clear_within from end ranges.old) }
    ensures err { OnErr result (ranges.new ≡ ranges.old) }
{
    let length = ranges.length();
    if from > end || end > length {
        return Ok(());
    }
    ranges.clear(from, end)
}

/// Sets a length that a file can have.
#[tactic(auto, unfolding(crate::specs::Body::resize_within))]
fn resize(ranges: &mut Ranges, length: u64) -> Result<(), NoMemory>
    ensures ok { OnOk result (ranges.new ≡ resize_within length ranges.old) }
    ensures err { OnErr result (ranges.new ≡ ranges.old) }
{
    if length > FILE_LIMIT {
        return Ok(());
    }
    ranges.resize(length)
}

/// Sets a length that is given, if one is.
fn resize_by(ranges: &mut Ranges, length: Option<u64>) -> Result<(), NoMemory>
    ensures ok { OnOk result (ranges.new ≡ resized_by length ranges.old) }
    ensures err { OnErr result (ranges.new ≡ ranges.old) }
{
    match length {
        Some(length) => resize(ranges, length),
        None => Ok(()),
    }
}
