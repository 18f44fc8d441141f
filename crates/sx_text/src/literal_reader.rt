//! Reading a literal, and looking at the byte in front.
ghost use Rattle.sx_text.specs.Readers.{literal_at, next_is_at};
ghost use Rattle.sx_text.specs.Given.{Reads};

use crate::fault::Unread;

/// Takes `text` from the front of the bytes, and gives the bytes behind it.
#[tactic(auto, unfolding(crate::specs::Readers::literal_at), using(crate::proofs::Literals::literal_empty, crate::proofs::Literals::literal_wrong, crate::proofs::Literals::literal_step, crate::proofs::Literals::literal_end))]
pub fn literal<'a>(bytes: &'a [u8], text: &[u8]) -> Result<&'a [u8], Unread>
    ensures { Reads (λ rest. rest.now) result (literal_at text.now bytes.now) }
{
    let mut rest = bytes;
    for wanted in text {
        match rest {
            [] => return Err(Unread { left: 0 }),
            [first, behind @ ..] => {
                if *first != *wanted {
                    return Err(Unread { left: rest.len() });
                }
                rest = behind;
            }
        }
    }
    Ok(rest)
}

/// Whether `byte` is the next byte, which tells one of two forms from the other. Where there is none it is a fault.
pub fn next_is(bytes: &[u8], byte: u8) -> Result<bool, Unread>
    ensures { Reads (λ is. is) result (next_is_at byte bytes.now) }
{
    match bytes {
        [] => Err(Unread { left: 0 }),
        [first, ..] => Ok(*first == byte),
    }
}
