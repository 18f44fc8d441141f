//! The head of a request, and a request.

use http::Method;
use sx_base::Items;
use sx_names::Text;

/// A header of a request: its name in lower case, and its value without the white space around it.
///
/// A value may have bytes past ASCII that aren't UTF-8 (RFC 9110, section 5.5).
#[derive(Debug, Drop, PartialEq)]
pub struct Header {
    /// The name, in lower case where the head was read.
    pub name: Text,
    /// The value, in bytes.
    pub value: Items<u8>,
}

/// The head of a request: its method, its target as it stood, whether its version is HTTP/1.1 (and not 1.0), and its
/// headers in their order (RFC 9112, sections 2 to 5).
///
/// Contracts see the method and the target as their bytes. That names are in lower case is said where a head is read.
#[derive(Debug, Drop, PartialEq)]
pub struct Head {
    /// The method, a token.
    pub method: Method,
    /// The target as it stood: at least one byte, none of them a space or a control.
    pub target: Text,
    /// Whether the version is HTTP/1.1, and not 1.0.
    pub v11: bool,
    /// The headers in their order.
    pub headers: Items<Header>,
}

/// A head, and as many body bytes as its Content-Length states, or none.
#[derive(Debug, Drop, PartialEq)]
pub struct Request {
    /// The head.
    pub head: Head,
    /// The body, of at most 4,194,304 bytes.
    pub body: Items<u8>,
}
