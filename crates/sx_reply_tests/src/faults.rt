//! Requests that failed: no call, a signature that isn't accepted, bytes that can't be read, and a full history.

use crate::made::{check, head_closing, joined, said, whole};
use std::alloc::Global;
use std::process::Abort;
use sx_call::{Stop, Syntax, Text};
use sx_names::NameRule;
use sx_reply::{AuthText, Said, WireText};

/// What stands between the length and the code.
const XML: &str = "\r\n\r\n<?xml version=\"1.0\" encoding=\"utf-8\"?><Error><Code>";

/// Panics unless the fault is printed with this status, code, stated length and message.
fn row(rt: &impl Abort, alloc: Global, fault: Said, status: &str, told: [&str; 3]) {
    let answer = said(fault);
    let [code, length, message] = told;
    let pieces = [
        "x-ms-error-code: ",
        code,
        "\r\nContent-Type: application/xml\r\nContent-Length: ",
        length,
        XML,
        code,
        "</Code><Message>",
        message,
        "</Message></Error>",
    ];
    let rest = joined(rt, alloc, &pieces);
    check(rt, alloc, &answer, whole(), status, rest.as_str());
}

fn syntax_row(rt: &impl Abort, alloc: Global, syntax: Syntax, status: &str, told: [&str; 3]) {
    row(rt, alloc, Said::Syntax(syntax), status, told);
}

fn auth_row(rt: &impl Abort, alloc: Global, fault: AuthText, length: &str, message: &str) {
    let told = ["AuthenticationFailed", length, message];
    row(rt, alloc, Said::Auth(fault), "403 Forbidden", told);
}

fn wire_row(rt: &impl Abort, alloc: Global, wire: WireText, status: &str, told: [&str; 3]) {
    row(rt, alloc, Said::Wire(wire), status, told);
}

/// The status of most faults.
const BAD: &str = "400 Bad Request";

/// Requests that are no call.
#[test]
fn requests_that_are_no_call(rt: HostRuntime) {
    let alloc = rt.alloc();
    syntax_row(
        &rt,
        alloc,
        Syntax::Verb,
        "405 Method Not Allowed",
        ["UnsupportedHttpVerb", "108", "verb"],
    );
    syntax_row(
        &rt,
        alloc,
        Syntax::NoCall,
        BAD,
        ["InvalidQueryParameterValue", "118", "no call"],
    );
    syntax_row(&rt, alloc, Syntax::Md5, BAD, ["Md5Mismatch", "99", "md5"]);
    let uri = Syntax::Uri {
        rule: NameRule::PathLong,
        part: 0,
        at: 0,
    };
    syntax_row(
        &rt,
        alloc,
        uri,
        BAD,
        ["InvalidUri", "119", "uri pathlong part 0 at 0"],
    );
}

fn a_name(rt: &impl Abort, alloc: Global) -> Text {
    joined(rt, alloc, &["x-ms-a&b<c>"])
}

/// A name's `&`, `<` and `>` are escaped in the body.
#[test]
fn names_are_escaped(rt: HostRuntime) {
    let alloc = rt.alloc();
    let name = a_name(&rt, alloc);
    syntax_row(
        &rt,
        alloc,
        Syntax::Header(name),
        BAD,
        ["InvalidHeaderValue", "131", "header x-ms-a&amp;b&lt;c&gt;"],
    );
    let name = a_name(&rt, alloc);
    syntax_row(
        &rt,
        alloc,
        Syntax::Query(name),
        BAD,
        [
            "InvalidQueryParameterValue",
            "138",
            "query x-ms-a&amp;b&lt;c&gt;",
        ],
    );
}

/// And in those on values.
#[test]
fn names_of_values_are_escaped(rt: HostRuntime) {
    let alloc = rt.alloc();
    let name = a_name(&rt, alloc);
    syntax_row(
        &rt,
        alloc,
        Syntax::Missing(name),
        BAD,
        [
            "MissingRequiredHeader",
            "135",
            "missing x-ms-a&amp;b&lt;c&gt;",
        ],
    );
    let name = a_name(&rt, alloc);
    syntax_row(
        &rt,
        alloc,
        Syntax::Range(name),
        BAD,
        [
            "OutOfRangeInput",
            "134",
            "out of range x-ms-a&amp;b&lt;c&gt;",
        ],
    );
}

/// Signatures that aren't accepted.
#[test]
fn failed_signatures(rt: HostRuntime) {
    let alloc = rt.alloc();
    auth_row(&rt, alloc, AuthText::NoHeader, "119", "auth no-header");
    auth_row(&rt, alloc, AuthText::BadHeader, "120", "auth bad-header");
    auth_row(
        &rt,
        alloc,
        AuthText::OtherAccount,
        "123",
        "auth other-account",
    );
    auth_row(&rt, alloc, AuthText::NoDate, "117", "auth no-date");
    auth_row(&rt, alloc, AuthText::BadDate, "118", "auth bad-date");
    auth_row(&rt, alloc, AuthText::Differs, "117", "auth differs");
}

/// Dates a tick too old and too new.
#[test]
fn dates_outside_the_window(rt: HostRuntime) {
    let alloc = rt.alloc();
    let old = AuthText::TooOld {
        dated: 16_409_952_000_000_000,
        now: 16_409_961_000_000_001,
    };
    auth_row(
        &rt,
        alloc,
        old,
        "153",
        "auth too-old 16409952000000000 16409961000000001",
    );
    let new = AuthText::TooNew {
        dated: 16_409_952_000_000_000,
        now: 16_409_942_999_999_999,
    };
    auth_row(
        &rt,
        alloc,
        new,
        "153",
        "auth too-new 16409952000000000 16409942999999999",
    );
}

/// Requests that can't be read.
#[test]
fn requests_that_are_not_read(rt: HostRuntime) {
    let alloc = rt.alloc();
    wire_row(
        &rt,
        alloc,
        WireText::Head { at: 17 },
        BAD,
        ["InvalidHeaderValue", "113", "head at 17"],
    );
    wire_row(
        &rt,
        alloc,
        WireText::BadLength,
        BAD,
        ["InvalidHeaderValue", "124", "header content-length"],
    );
    wire_row(
        &rt,
        alloc,
        WireText::HeadLong,
        BAD,
        ["InvalidHeaderValue", "116", "head too long"],
    );
    let told = ["MissingContentLengthHeader", "117", "length"];
    wire_row(&rt, alloc, WireText::NoLength, "411 Length Required", told);
    let told = ["RequestBodyTooLarge", "116", "body 4194305"];
    wire_row(
        &rt,
        alloc,
        WireText::Body { n: 4_194_305 },
        "413 Payload Too Large",
        told,
    );
}

/// Calls that were not appended to the history.
#[test]
fn stops_are_printed(rt: HostRuntime) {
    let alloc = rt.alloc();
    let status = "503 Service Unavailable";
    let told = ["OutOfMemory", "102", "memory"];
    row(&rt, alloc, Said::Stop(Stop::NoMemory), status, told);
    let full = Stop::HistoryFull {
        entries: 2,
        sessions: 1,
        limit: 3,
    };
    let told = ["HistoryFull", "109", "history 2 1 3"];
    row(&rt, alloc, Said::Stop(full), status, told);
}

/// To a request for the head alone a fault has no body, and the length 0.
#[test]
fn faults_without_a_body(rt: HostRuntime) {
    let answer = said(Said::Wire(WireText::NoLength));
    check(
        &rt,
        rt.alloc(),
        &answer,
        head_closing(),
        "411 Length Required",
        "x-ms-error-code: MissingContentLengthHeader\r\nContent-Type: application/xml\r\nContent-Length: 0\r\n\
Connection: close\r\n\r\n",
    );
}
