//! What the answer to a refused request needs to know of its head.

ghost use Rattle.std.specs.Prelude.{◌≡◌};
ghost use Rattle.sx_http.specs.Facts.{known_version, version_of, facts_of, no_facts};

use crate::heads::{Head, Header};
use crate::lookup::{count_named, first_named};

/// A version of the service, as `x-ms-version` names it.
#[derive(Clone, Copy, Debug, PartialEq, Eq)]
pub enum Version {
    /// `2020-10-02`
    V20201002,
    /// `2021-04-10`
    V20210410,
}

/// What the answer to a refusal needs of the request's head.
#[derive(Clone, Copy, Debug, PartialEq, Eq)]
pub struct HeadFacts {
    /// The head was whole, and its method is HEAD: the answer has no body.
    pub head_only: bool,
    /// The version that a whole head asks for, where it has `x-ms-version` once and names a known one.
    pub version: Option<Version>,
}

/// What is told of a whole head.
pub(crate) fn facts_of(head: &Head) -> HeadFacts
    ensures { result ≡ facts_of head.now }
{
    HeadFacts {
        head_only: head.method.as_str() == "HEAD",
        version: version_of(head.headers.as_slice()),
    }
}

/// What is told where no head is whole.
pub(crate) fn no_facts() -> HeadFacts
    ensures { result ≡ no_facts }
{
    HeadFacts {
        head_only: false,
        version: None,
    }
}

fn version_of(headers: &[Header]) -> Option<Version>
    ensures { result ≡ version_of headers.now }
{
    if count_named(headers, b"x-ms-version") != 1 {
        return None;
    }
    match first_named(headers, b"x-ms-version") {
        None => None,
        Some(header) => known_version(header.value.as_slice()),
    }
}

fn known_version(value: &[u8]) -> Option<Version>
    ensures { result ≡ known_version value.now }
{
    if value == b"2020-10-02".as_slice() {
        return Some(Version::V20201002);
    }
    if value == b"2021-04-10".as_slice() {
        return Some(Version::V20210410);
    }
    None
}
