//! Trying one of several names.
ghost use Rattle.sx_text.specs.Readers.{literal_at};
ghost use Rattle.sx_text.specs.Named.{tried_at};
ghost use Rattle.sx_text.specs.Given.{Reads};

use crate::fault::Unread;
use crate::literal_reader::literal;

/// Takes the name from the front of the bytes if it is allowed, and gives the bytes behind it. Else it tells how many
/// bytes are left behind the longest prefix that begins a name, where the names tried before leave so many.
pub fn try_name<'a>(
    bytes: &'a [u8],
    is_allowed: bool,
    name: &[u8],
    left: usize,
) -> Result<&'a [u8], Unread>
    ensures { Reads (λ rest. rest.now) result (tried_at is_allowed (literal_at name.now bytes.now) left) }
{
    if !is_allowed {
        return Err(Unread { left });
    }
    match literal(bytes, name) {
        Ok(rest) => Ok(rest),
        Err(unread) => Err(Unread {
            left: left.min(unread.left),
        }),
    }
}
