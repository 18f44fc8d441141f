//! Percent-encoding of texts in targets.

ghost use Rattle.std.specs.Prelude.{◌≡◌, IfOk, string_bytes};
ghost use Rattle.sx_heads.specs.Values.{escaped};

use percent_encoding::{AsciiSet, NON_ALPHANUMERIC, ascii_set, percent_encode};
use std::alloc::{AllocError, Global};

/// The ASCII bytes that are escaped: all but letters, digits, `-`, `_`, `.` and `~`.
pub const PLAIN: AsciiSet = ascii_set!(
    NON_ALPHANUMERIC
        .remove(b'-')
        .remove(b'_')
        .remove(b'.')
        .remove(b'~')
);

/// A text, percent-encoded.
pub(crate) fn escaped(alloc: Global, text: &[u8]) -> Result<String, AllocError>
    ensures { IfOk result (λ t. string_bytes t ≡ escaped text.now) }
{
    let mut encoded = String::new(alloc);
    percent_encode(text, PLAIN).append_to(&mut encoded)?;
    Ok(encoded)
}
