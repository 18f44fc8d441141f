//! Headers looked up by their name.

ghost use Rattle.std.specs.Prelude.{◌≡◌, IfOk, map};
ghost use Rattle.std.specs.List.{find, count_by};
ghost use Rattle.std.specs.Option.{option_map};
ghost use Rattle.sx_http.specs.Lookup.{is_named, has_header, header_values};

use crate::heads::Header;
use std::alloc::{AllocError, Global};

/// The values of the headers of a name, in the order received. The name is in lower case, as those of a head that was
/// read.
pub fn header_values<'a>(
    alloc: Global,
    headers: &'a [Header],
    name: &[u8],
) -> Result<Vec<&'a [u8]>, AllocError>
    ensures { IfOk result (λ v. map (λ t. t.now) v.items ≡ header_values name.now headers.now) }
{
    headers
        .iter()
        .filter(|h| is_named(h, name))
        .map(|h| h.value.as_slice())
        .collect(alloc)
}

/// Whether a header of this name is there. It takes no memory.
pub fn has_header(headers: &[Header], name: &[u8]) -> bool
    ensures { result ≡ has_header name.now headers.now }
{
    headers.iter().any(|h| is_named(h, name))
}

/// Whether a header has this name, which is in lower case.
pub(crate) fn is_named(header: &Header, name: &[u8]) -> bool
    ensures { result ≡ is_named name.now header.now }
{
    header.name.bytes() == name
}

/// The first header of a name.
pub(crate) fn first_named<'a>(headers: &'a [Header], name: &[u8]) -> Option<&'a Header>
    ensures { option_map (λ h. h.now) result ≡ find (is_named name.now) headers.now }
{
    headers.iter().find(|h| is_named(h, name))
}

/// How many headers have a name.
pub(crate) fn count_named(headers: &[Header], name: &[u8]) -> usize
    ensures { result ≡ count_by (is_named name.now) headers.now }
{
    headers.iter().filter(|h| is_named(h, name)).count()
}
