//! Requests, each with what it is to be read as.

use std::alloc::Global;
use std::process::Abort;
use sx_base::Items;
use sx_call::{Call, Syntax, Text};
use sx_decode::forms::Row;
use sx_decode::{Unread, call_of};
use sx_http::{Head, Request, read_head};
use sx_names::NameRule;

/// What a request is to be read as.
#[derive(Clone, Copy)]
pub enum Told {
    /// The call of this row.
    Call(Row),
    /// The refusals, each with what is to blame.
    Verb,
    Header(&'static str),
    Uri(NameRule, u32, u64),
    Query(&'static str),
    NoCall,
    Missing(&'static str),
    Range(&'static str),
    Md5,
}

/// A request, and what it is to be read as.
#[derive(Clone, Copy)]
pub struct Case {
    head: &'static str,
    body: &'static str,
    told: Told,
}

/// A request without a body.
pub const fn bare(head: &'static str, told: Told) -> Case {
    Case {
        head,
        body: "",
        told,
    }
}

/// A request with a body.
pub const fn with_body(head: &'static str, body: &'static str, told: Told) -> Case {
    Case { head, body, told }
}

fn head_of(rt: &impl Abort, alloc: Global, text: &[u8]) -> Head {
    match read_head(alloc, text) {
        Ok(Some(head)) => head,
        _ => panic!(rt; "no head"),
    }
}

fn body_of(rt: &impl Abort, alloc: Global, text: &str) -> Items<u8> {
    match Items::copy_of(alloc, text.as_bytes()) {
        Ok(body) => body,
        Err(_) => panic!(rt; "no memory"),
    }
}

fn request_of(rt: &impl Abort, alloc: Global, head: &[u8], body: &str) -> Request {
    Request {
        head: head_of(rt, alloc, head),
        body: body_of(rt, alloc, body),
    }
}

/// The row of a call on the account, a share or a directory.
fn share_row(call: &Call) -> Option<Row> {
    match call {
        Call::ListShares(_) => Some(Row::ListShares),
        Call::CreateShare(_) => Some(Row::CreateShare),
        Call::GetShareProperties(_) => Some(Row::GetShareProperties),
        Call::SetShareProperties(_) => Some(Row::SetShareProperties),
        Call::GetShareMetadata(_) => Some(Row::GetShareMetadata),
        Call::SetShareMetadata(_) => Some(Row::SetShareMetadata),
        Call::DeleteShare(_) => Some(Row::DeleteShare),
        Call::DeleteSnapshot(_) => Some(Row::DeleteSnapshot),
        Call::SnapshotShare(_) => Some(Row::SnapshotShare),
        Call::LeaseShare(_) => Some(Row::LeaseShare),
        _ => directory_row(call),
    }
}

fn directory_row(call: &Call) -> Option<Row> {
    match call {
        Call::CreateDirectory(_) => Some(Row::CreateDirectory),
        Call::GetDirectoryProperties(_) => Some(Row::GetDirectoryProperties),
        Call::GetDirectoryMetadata(_) => Some(Row::GetDirectoryMetadata),
        Call::SetDirectoryMetadata(_) => Some(Row::SetDirectoryMetadata),
        Call::DeleteDirectory(_) => Some(Row::DeleteDirectory),
        Call::ListDirectory(_) => Some(Row::ListDirectory),
        Call::ListHandles(_) => Some(Row::ListHandles),
        Call::ForceCloseHandles(_) => Some(Row::ForceCloseHandles),
        _ => file_row(call),
    }
}

fn file_row(call: &Call) -> Option<Row> {
    match call {
        Call::CreateFile(_) => Some(Row::CreateFile),
        Call::GetFile(_) => Some(Row::GetFile),
        Call::GetFileProperties(_) => Some(Row::GetFileProperties),
        Call::SetFileProperties(_) => Some(Row::SetFileProperties),
        Call::GetFileMetadata(_) => Some(Row::GetFileMetadata),
        Call::SetFileMetadata(_) => Some(Row::SetFileMetadata),
        Call::UpdateRange(_) => Some(Row::UpdateRange),
        Call::ClearRange(_) => Some(Row::ClearRange),
        Call::ListRanges(_) => Some(Row::ListRanges),
        Call::DeleteFile(_) => Some(Row::DeleteFile),
        Call::LeaseFile(_) => Some(Row::LeaseFile),
        _ => None,
    }
}

fn is_call(call: &Call, row: Row) -> bool {
    match share_row(call) {
        Some(found) => found as u8 == row as u8,
        None => false,
    }
}

fn is_name(name: &Text, wanted: &str) -> bool {
    name.as_str() == wanted
}

fn is_refusal(refusal: &Syntax, told: Told) -> bool {
    match told {
        Told::Verb => matches!(refusal, Syntax::Verb),
        Told::NoCall => matches!(refusal, Syntax::NoCall),
        Told::Md5 => matches!(refusal, Syntax::Md5),
        Told::Uri(wanted, in_part, place) => match refusal {
            Syntax::Uri { rule, part, at } => {
                *rule == wanted && *part == in_part && *at == place
            }
            _ => false,
        },
        named => is_named(refusal, named),
    }
}

fn is_named(refusal: &Syntax, told: Told) -> bool {
    match told {
        Told::Header(wanted) => match refusal {
            Syntax::Header(name) => is_name(name, wanted),
            _ => false,
        },
        Told::Query(wanted) => match refusal {
            Syntax::Query(name) => is_name(name, wanted),
            _ => false,
        },
        Told::Missing(wanted) => match refusal {
            Syntax::Missing(name) => is_name(name, wanted),
            _ => false,
        },
        Told::Range(wanted) => match refusal {
            Syntax::Range(name) => is_name(name, wanted),
            _ => false,
        },
        _ => false,
    }
}

fn is_told(answer: &Result<Call, Unread>, told: Told) -> bool {
    match answer {
        Ok(call) => match told {
            Told::Call(row) => is_call(call, row),
            _ => false,
        },
        Err(Unread::Syntax(refusal)) => is_refusal(refusal, told),
        Err(Unread::NoMemory) => false,
    }
}

/// Lets go of a value whole, whatever it holds.
fn let_go<T: Drop>(_value: T) {}

/// Whether a request of this head and body is read as is told.
fn is_read_as(rt: &impl Abort, alloc: Global, head: &[u8], body: &str, told: Told) -> bool {
    let answer = call_of(alloc, request_of(rt, alloc, head, body));
    let as_told = is_told(&answer, told);
    let_go(answer);
    as_told
}

/// Whether a request without a body is read as is told.
pub fn reads(rt: &impl Abort, alloc: Global, head: &[u8], told: Told) -> bool {
    is_read_as(rt, alloc, head, "", told)
}

/// The request is read as is told.
pub fn is_read(rt: &impl Abort, alloc: Global, case: &Case) {
    if !is_read_as(rt, alloc, case.head.as_bytes(), case.body, case.told) {
        panic!(rt; "read otherwise: {}", case.head);
    }
}

/// The requests are read as is told.
pub fn are_read(rt: &impl Abort, alloc: Global, cases: &[Case]) {
    for case in cases.iter() {
        is_read(rt, alloc, case);
    }
}
