//! When a connection closes behind an answer, and how the answer to a request is printed.
ghost use Rattle.std.specs.Prelude.{◌≡◌};
ghost use Rattle.std.specs.List.{list_any};
ghost use Rattle.sx_rest_door.specs.Closing.{is_close, says_close, has_close, closes, shape_of};

use sx_decode::words::is_word_in_blanks;
use sx_http::{Head, Header};
use sx_reply::Shape;

/// Whether the word is `close`, with blanks round it.
fn is_close(word: &[u8]) -> bool
    ensures { result ≡ is_close word.now }
{
    is_word_in_blanks(true, b"close", word)
}

/// Whether the value has the word `close`.
fn has_close(value: &[u8]) -> bool
    ensures { result ≡ has_close value.now }
{
    value.split(|b| *b == b',').any(|word| is_close(word))
}

/// Whether the header is a Connection that says that it closes.
fn says_close(header: &Header) -> bool
    ensures { result ≡ says_close header.now }
{
    header.name.bytes() == b"connection".as_slice() && has_close(header.value.as_slice())
}

/// Whether one of the headers says that the connection closes.
fn any_says_close(headers: &[Header]) -> bool
    ensures { result ≡ list_any says_close headers.now }
{
    headers.iter().any(|h| says_close(h))
}

/// Whether the connection closes behind the answer to a request with this head.
fn closes(head: &Head) -> bool
    ensures { result ≡ closes head.now }
{
    !head.v11 || any_says_close(head.headers.as_slice())
}

/// How the answer to a request with this head is printed.
pub(crate) fn shape_of(head: &Head) -> Shape
    ensures { result ≡ shape_of head.now }
{
    Shape {
        head_only: head.method.as_str() == "HEAD",
        close: closes(head),
    }
}
