//! What stands next on a connection: a request, one that can't be read, or none.
ghost use Rattle.std.specs.Prelude.{◌≡◌, ◌≤◌, ◌+◌, false, length};
ghost use Rattle.sx_rest_door.specs.Asking.{IsHeard};
ghost use Rattle.sx_rest_door.specs.Conversation.{long_text};
ghost use Rattle.sx_rest_door.specs.declared.hearing.Heard.TheVariants.{Refuses};

use sx_base::Source;
use sx_book::ConnEnd;
use sx_http::{Long, Next, Reader, Request};
use sx_reply::WireText;

/// A request that can't be read, as it is told.
#[derive(Clone, Copy, Debug, PartialEq, Eq)]
pub struct Unreadable {
    /// How many bytes stand before its first byte.
    pub at: u64,
    /// What is told of it.
    pub text: WireText,
    /// Whether it asked for the head alone, where its head was whole.
    pub head_only: bool,
}

/// What stands next on a connection.
#[derive(Debug, Drop)]
pub enum Heard {
    /// A request.
    Asks(Request),
    /// A request that can't be read.
    Refuses(Unreadable),
    /// No further request, and why.
    Ends(ConnEnd),
}

/// What is told of a request that is over a limit: by its head, by its headers, or by its body of `n` bytes.
fn long_text(what: Long, n: u64) -> WireText
    ensures { result ≡ long_text what n }
{
    match what {
        Long::Head => WireText::HeadLong,
        Long::Headers => WireText::HeadLong,
        Long::Body => WireText::Body { n },
    }
}

/// A request that can't be read is told so.
fn refusal(at: u64, text: WireText, head_only: bool) -> Heard
    ensures { result ≡ Refuses (record { at = at; text = text; head_only = head_only }) }
{
    Heard::Refuses(Unreadable {
        at,
        text,
        head_only,
    })
}

/// Takes what stands next off a connection.
pub(crate) fn hear<S: Source>(reader: &mut Reader, source: &mut S) -> Heard
    requires { reader.old.ended ≡ false }
    ensures heard { IsHeard result reader.old reader.new (S.left source.old) (S.left source.new)
        (S.read_count source.old) (S.read_count source.new) }
    ensures within { reader.new.given + length reader.new.held ≤ reader.new.budget }
    ensures step { S.reads source.old source.new }
{
    match reader.next(source) {
        Next::Whole(request) => Heard::Asks(request),
        Next::BadHead { at } => refusal(at, WireText::Head { at }, false),
        Next::NoLength { at, facts } => refusal(at, WireText::NoLength, facts.head_only),
        Next::BadLength { at, facts } => refusal(at, WireText::BadLength, facts.head_only),
        Next::TooLong { at, what, n, facts } => refusal(at, long_text(what, n), facts.head_only),
        Next::End => Heard::Ends(ConnEnd::Ended),
        Next::Cut { left } => Heard::Ends(ConnEnd::Cut { left }),
        Next::Spent => Heard::Ends(ConnEnd::Spent),
        Next::ReadFault => Heard::Ends(ConnEnd::ReadFault),
        Next::NoMemory => Heard::Ends(ConnEnd::NoMemory),
    }
}
