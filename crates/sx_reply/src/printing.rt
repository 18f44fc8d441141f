//! Printing answers.
ghost use Rattle.std.specs.Prelude.{codes, ◌≡◌, true};
ghost use Rattle.sx_base.specs.Sink.{Prints};
ghost use Rattle.sx_reply.specs.Faults.{fault, syntax_fault, auth_fault, wire_fault, stop_fault};
ghost use Rattle.sx_reply.specs.Faults.{named, uri_message, rule_name};
ghost use Rattle.sx_reply.specs.Refusals.{words};
ghost use Rattle.sx_reply.specs.PrintedReply.{printed, page_text, fault_page, is_printed, is_reply_printed};

use crate::answer::{Answer, AuthText, Said, Shape, WireText};
use crate::faults::{
    auth_message, named, rule_name, stop_code, stop_message, uri_message, wire_code, wire_message,
    wire_status,
};
use crate::pages::{Asked, print_fault};
use crate::refusals::{has_code, words};
use crate::reply::print_reply;
use sx_base::{Failed, Sink};
use sx_call::{Reply, Stop, Syntax, Text};
use sx_names::NameRule;

/// Whether an answer that says this is printed here: a session's isn't, nor a refusal that no REST call has.
pub fn is_printed(said: &Said) -> bool
    ensures { result ≡ is_printed said.now }
{
    match said {
        Said::Core(reply) => is_reply_printed(reply),
        _ => true,
    }
}

/// Whether a reply is printed here.
fn is_reply_printed(reply: &Reply) -> bool
    ensures { result ≡ is_reply_printed reply.now }
{
    match reply {
        Reply::Refused(refusal) => has_code(refusal),
        Reply::Smb(_) => false,
        _ => true,
    }
}

/// Writes the bytes of an answer, or a prefix of them where the sink fails. It takes no memory.
///
/// A head of at most 4,096 bytes is one put, and the bytes of a file are put in pieces of at most 65,536. An answer of
/// a session isn't printed here, nor a refusal that no REST call has.
pub fn print<K: Sink>(sink: &mut K, answer: &Answer, shape: Shape) -> Result<(), Failed>
    requires { is_printed answer.now.said ≡ true }
    ensures { Prints K.wrote K.write_count K.puts sink.old sink.new (printed answer.now shape) result }
{
    let asked = Asked {
        place: answer.place,
        at: answer.at,
        shape,
    };
    match &answer.said {
        Said::Core(reply) => print_reply(sink, asked, reply),
        Said::Syntax(syntax) => print_syntax(sink, asked, syntax),
        Said::Auth(fault) => print_auth(sink, asked, fault),
        Said::Wire(wire) => print_wire(sink, asked, wire),
        Said::Stop(stop) => print_stop(sink, asked, stop),
    }
}

/// Prints that a request is no call.
#[tactic(auto, unfolding(crate::specs::Faults::syntax_fault))]
fn print_syntax<K: Sink>(sink: &mut K, asked: Asked, syntax: &Syntax) -> Result<(), Failed>
    ensures { Prints K.wrote K.write_count K.puts sink.old sink.new
        (page_text asked.place asked.at (fault_page (syntax_fault syntax.now)) asked.shape) result }
{
    match syntax {
        Syntax::Verb => print_words_fault(sink, asked, 405, b"UnsupportedHttpVerb", b"verb"),
        Syntax::Header(name) => {
            print_named_fault(sink, asked, b"InvalidHeaderValue", b"header ", name)
        }
        Syntax::Uri { rule, part, at } => print_uri_fault(sink, asked, *rule, *part, *at),
        Syntax::Query(name) => {
            print_named_fault(sink, asked, b"InvalidQueryParameterValue", b"query ", name)
        }
        Syntax::NoCall => {
            print_words_fault(sink, asked, 400, b"InvalidQueryParameterValue", b"no call")
        }
        Syntax::Missing(name) => {
            print_named_fault(sink, asked, b"MissingRequiredHeader", b"missing ", name)
        }
        Syntax::Range(name) => {
            print_named_fault(sink, asked, b"OutOfRangeInput", b"out of range ", name)
        }
        Syntax::Md5 => print_words_fault(sink, asked, 400, b"Md5Mismatch", b"md5"),
    }
}

/// Prints a fault whose message is these words.
fn print_words_fault<'a, K: Sink>(
    sink: &mut K,
    asked: Asked,
    status: u16,
    code: &'a [u8],
    text: &'a [u8],
) -> Result<(), Failed>
    ensures { Prints K.wrote K.write_count K.puts sink.old sink.new
        (page_text asked.place asked.at (fault_page (fault status code.now (words text.now))) asked.shape) result }
{
    let message = words(text);
    print_fault(sink, asked, status, code, &message)
}

/// Prints a fault whose message speaks of a name.
fn print_named_fault<'a, K: Sink>(
    sink: &mut K,
    asked: Asked,
    code: &'a [u8],
    text: &'a [u8],
    name: &'a Text,
) -> Result<(), Failed>
    ensures { Prints K.wrote K.write_count K.puts sink.old sink.new
        (page_text asked.place asked.at (fault_page (fault 400 code.now (named text.now name.now))) asked.shape)
        result }
{
    let message = named(text, name);
    print_fault(sink, asked, 400, code, &message)
}

/// Prints that a target's path breaks a rule of names.
fn print_uri_fault<K: Sink>(
    sink: &mut K,
    asked: Asked,
    rule: NameRule,
    part: u32,
    at: u64,
) -> Result<(), Failed>
    ensures { Prints K.wrote K.write_count K.puts sink.old sink.new
        (page_text asked.place asked.at
        (fault_page (fault 400 (codes "InvalidUri") (uri_message (rule_name rule) part at))) asked.shape) result }
{
    let message = uri_message(rule_name(rule), part, at);
    print_fault(sink, asked, 400, b"InvalidUri", &message)
}

/// Prints that a request's signature isn't accepted.
fn print_auth<K: Sink>(sink: &mut K, asked: Asked, fault: &AuthText) -> Result<(), Failed>
    ensures { Prints K.wrote K.write_count K.puts sink.old sink.new
        (page_text asked.place asked.at (fault_page (auth_fault fault.now)) asked.shape) result }
{
    let message = auth_message(fault);
    print_fault(sink, asked, 403, b"AuthenticationFailed", &message)
}

/// Prints that a request can't be read.
fn print_wire<K: Sink>(sink: &mut K, asked: Asked, wire: &WireText) -> Result<(), Failed>
    ensures { Prints K.wrote K.write_count K.puts sink.old sink.new
        (page_text asked.place asked.at (fault_page (wire_fault wire.now)) asked.shape) result }
{
    let status = wire_status(wire);
    let message = wire_message(wire);
    print_fault(sink, asked, status, wire_code(wire), &message)
}

/// Prints that a call wasn't appended to the history.
fn print_stop<K: Sink>(sink: &mut K, asked: Asked, stop: &Stop) -> Result<(), Failed>
    ensures { Prints K.wrote K.write_count K.puts sink.old sink.new
        (page_text asked.place asked.at (fault_page (stop_fault stop.now)) asked.shape) result }
{
    let message = stop_message(stop);
    print_fault(sink, asked, 503, stop_code(stop), &message)
}
