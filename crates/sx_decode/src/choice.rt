//! The choice of the row that a request fits.

ghost use Rattle.std.specs.Prelude.{◌≡◌};
ghost use Rattle.std.specs.List.{find};
ghost use Rattle.sx_decode.specs.Table.{fits_verb, fits_shape, fits_restype, fits_comp, fits_told, fits, row_of};

use crate::forms::{Comp, Form, Restype, Shape, Shapes, Told, Verb, Verbs};
use crate::table::TABLE;

fn fits_verb(verbs: Verbs, verb: Verb) -> bool
    ensures { result ≡ fits_verb verbs verb }
{
    match verbs {
        Verbs::Get => verb as u8 == 0,
        Verbs::Head => verb as u8 == 1,
        Verbs::GetOrHead => (verb as u8) < 2,
        Verbs::Put => verb as u8 == 2,
        Verbs::Delete => verb as u8 == 3,
    }
}

fn fits_shape(shapes: Shapes, shape: Shape) -> bool
    ensures { result ≡ fits_shape shapes shape }
{
    match shapes {
        Shapes::Account => shape as u8 == 0,
        Shapes::Share => shape as u8 == 1,
        Shapes::Path => shape as u8 == 2,
        Shapes::ShareOrPath => 0 < shape as u8,
    }
}

fn fits_told(told: Told, snapshot: bool, clears: bool) -> bool
    ensures { result ≡ fits_told told snapshot clears }
{
    match told {
        Told::Alone => true,
        Told::NoSnapshot => !snapshot,
        Told::Snapshot => snapshot,
        Told::Update => !clears,
        Told::Clear => clears,
    }
}

fn fits_restype(given: Restype, restype: Restype) -> bool
    ensures { result ≡ fits_restype given restype }
{
    given as u8 == restype as u8
}

fn fits_comp(given: Comp, comp: Comp) -> bool
    ensures { result ≡ fits_comp given comp }
{
    given as u8 == comp as u8
}

/// What of a request chooses its row.
#[derive(Clone, Copy)]
pub struct Key {
    /// The method.
    pub verb: Verb,
    /// What the path names.
    pub shape: Shape,
    /// restype
    pub restype: Restype,
    /// comp
    pub comp: Comp,
    /// Whether sharesnapshot is there.
    pub snapshot: bool,
    /// Whether x-ms-write is `clear`.
    pub clears: bool,
}

#[tactic(auto, unfolding(crate::specs::Table::fits))]
fn fits(key: Key, form: &Form) -> bool
    ensures { result ≡ fits key form.now }
{
    fits_verb(form.verbs, key.verb)
        && (fits_shape(form.shapes, key.shape)
            && (fits_restype(form.restype, key.restype)
                && (fits_comp(form.comp, key.comp)
                    && fits_told(form.told, key.snapshot, key.clears))))
}

fn first_fit(key: Key, table: &[Form]) -> Option<Form>
    ensures { result ≡ find (fits key) table.now }
{
    table.iter().find(|form| fits(key, form)).copied()
}

/// The first row of the table that a request fits.
#[tactic(auto, unfolding(crate::specs::Table::row_of))]
pub fn row_of(key: Key) -> Option<Form>
    ensures { result ≡ row_of key }
{
    first_fit(key, &TABLE)
}
