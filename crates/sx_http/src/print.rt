//! The text of a head.

ghost use Rattle.std.specs.Prelude.{◌≡◌};
ghost use Rattle.sx_base.specs.Sink.{Prints};
ghost use Rattle.sx_http.specs.Print.{line_end, line_text, version_text, start_line, pair_text, header_line};
ghost use Rattle.sx_http.specs.Print.{headers_text, head_text};

use crate::heads::{Head, Header};
use sx_base::{Failed, Fragment, Sink, print};

/// Writes the text of a head, or a prefix of it where the sink fails: the method, a space, the target, a space,
/// `HTTP/1.1` or `HTTP/1.0`, then each header as its name, `: ` and its value, and an empty line, each line ended by
/// CR LF (RFC 9112, sections 2 to 5). It takes no memory.
pub fn print_head<K: Sink>(sink: &mut K, head: &Head) -> Result<(), Failed>
    ensures { Prints K.wrote K.write_count K.puts sink.old sink.new (head_text head.now) result }
{
    match print_start(sink, head) {
        Ok(()) => {}
        Err(failed) => return Err(failed),
    }
    print_headers(sink, head.headers.as_slice())
}

fn print_start<K: Sink>(sink: &mut K, head: &Head) -> Result<(), Failed>
    ensures { Prints K.wrote K.write_count K.puts sink.old sink.new (start_line head.now) result }
{
    let version = version_text(head.v11);
    print_line(
        sink,
        head.method.as_str().as_bytes(),
        head.target.bytes(),
        version,
    )
}

fn version_text(v11: bool) -> &'static [u8]
    ensures { result.now ≡ version_text v11 }
{
    if v11 { b"HTTP/1.1" } else { b"HTTP/1.0" }
}

fn print_line<'a, K: Sink>(
    sink: &mut K,
    method: &'a [u8],
    target: &'a [u8],
    version: &'a [u8],
) -> Result<(), Failed>
    ensures { Prints K.wrote K.write_count K.puts sink.old sink.new
        (line_text method.now target.now version.now) result }
{
    print(
        sink,
        &[
            Fragment::Text(method),
            Fragment::Text(b" "),
            Fragment::Text(target),
            Fragment::Text(b" "),
            Fragment::Text(version),
            Fragment::Text(b"\r\n"),
        ],
    )
}

/// Writes the lines of headers, and the empty line behind them.
fn print_headers<K: Sink>(sink: &mut K, headers: &[Header]) -> Result<(), Failed>
    ensures { Prints K.wrote K.write_count K.puts sink.old sink.new (headers_text headers.now) result }
{
    for header in headers {
        match print_header(sink, header) {
            Ok(()) => {}
            Err(failed) => return Err(failed),
        }
    }
    print_end(sink)
}

fn print_end<K: Sink>(sink: &mut K) -> Result<(), Failed>
    ensures { Prints K.wrote K.write_count K.puts sink.old sink.new line_end result }
{
    sink.put(b"\r\n")
}

fn print_header<K: Sink>(sink: &mut K, header: &Header) -> Result<(), Failed>
    ensures { Prints K.wrote K.write_count K.puts sink.old sink.new (header_line header.now) result }
{
    print_pair(sink, header.name.bytes(), header.value.as_slice())
}

fn print_pair<'a, K: Sink>(sink: &mut K, name: &'a [u8], value: &'a [u8]) -> Result<(), Failed>
    ensures { Prints K.wrote K.write_count K.puts sink.old sink.new (pair_text name.now value.now) result }
{
    print(
        sink,
        &[
            Fragment::Text(name),
            Fragment::Text(b": "),
            Fragment::Text(value),
            Fragment::Text(b"\r\n"),
        ],
    )
}
