//! Requests of HTTP/1.x on a stream: heads, bodies and the refusals of both.
#![tactic(auto)]

mod body;
mod facts;
mod framing;
mod heads;
mod judging;
mod laws;
mod limits;
mod lookup;
mod next;
mod parse;
mod print;
mod reader;

pub use facts::{HeadFacts, Version};
pub use framing::{Framing, StatedLength};
pub use heads::{Head, Header, Request};
pub use http::Method;
pub use laws::{heads_are_determined, reasons_are_determined, requests_are_determined};
pub use limits::{BODY_LIMIT, HEAD_LIMIT, HEADER_LIMIT};
pub use lookup::{has_header, header_values};
pub use next::{Long, Next};
pub use parse::read_head;
pub use print::print_head;
pub use reader::Reader;
