//! Requests that are read, and that are written again for their calls.
use std::alloc::Global;
use std::process::Abort;
use sx_base::{Items, MemSink};
use sx_call::{Call, Door};
use sx_decode::call_of;
use sx_heads::head_of;
use sx_http::{Head, Request, print_head, read_head};

/// A request as a client may send it, and the head that is written for its call. The body stays.
pub struct Row {
    pub asked: &'static str,
    pub body: &'static str,
    pub written: &'static str,
}

fn head_in(rt: &impl Abort, alloc: Global, text: &str) -> Head {
    match read_head(alloc, text.as_bytes()) {
        Ok(Some(head)) => head,
        _ => panic!(rt; "no head: {}", text),
    }
}

fn body_in(rt: &impl Abort, alloc: Global, text: &str) -> Items<u8> {
    match Items::copy_of(alloc, text.as_bytes()) {
        Ok(body) => body,
        Err(_) => panic!(rt; "no memory"),
    }
}

fn request_in(rt: &impl Abort, alloc: Global, row: &Row) -> Request {
    Request {
        head: head_in(rt, alloc, row.asked),
        body: body_in(rt, alloc, row.body),
    }
}

/// The call that a request spells.
fn call_in(rt: &impl Abort, alloc: Global, row: &Row) -> Call {
    match call_of(alloc, request_in(rt, alloc, row)) {
        Ok(call) => call,
        Err(_) => panic!(rt; "no call: {}", row.asked),
    }
}

/// The request that is written for a call.
fn request_for(rt: &impl Abort, alloc: Global, call: &Call) -> Request {
    let Door::Rest = call.door() else {
        panic!(rt; "no call of REST")
    };
    match head_of(alloc, call) {
        Ok(request) => request,
        Err(_) => panic!(rt; "no memory"),
    }
}

/// Sees that the head of a request is printed as these bytes.
fn is_printed(rt: &impl Abort, alloc: Global, head: &Head, written: &str) {
    let mut sink = MemSink::new(alloc, Vec::new(alloc));
    assert!(rt; print_head(&mut sink, head).is_ok());
    if sink.bytes() != written.as_bytes() {
        panic!(rt; "written otherwise: {}", written);
    }
}

/// Lets go of a value.
fn let_go<T: Drop>(_value: T) {}

/// Sees which request is written for a call.
fn is_written(rt: &impl Abort, alloc: Global, call: &Call, row: &Row) {
    let request = request_for(rt, alloc, call);
    is_printed(rt, alloc, &request.head, row.written);
    assert!(rt; request.body.as_slice() == row.body.as_bytes());
    let_go(request);
}

/// Sees that a request is read, and which one is written for its call.
fn is_read(rt: &impl Abort, alloc: Global, row: &Row) {
    let call = call_in(rt, alloc, row);
    is_written(rt, alloc, &call, row);
    let_go(call);
}

/// Sees that requests are read, and which ones are written for their calls.
pub fn are_read(rt: &impl Abort, alloc: Global, rows: &[Row]) {
    for row in rows.iter() {
        is_read(rt, alloc, row);
    }
}
