//! Moments in bodies.

ghost use Rattle.std.specs.Prelude.{◌≡◌, ◌++◌, OnOk};
ghost use Rattle.sx_base.specs.Date.{date_text};
ghost use Rattle.sx_base.specs.Moment.{moment_text};

use sx_base::{NoMemory, print_date, print_moment};
use sx_moment::{Moment, Second};
use sx_names::Text;

/// Puts a moment behind a text, as bodies and the markers of snapshots show it. `NoMemory` comes where memory is
/// refused.
pub fn append_moment(text: &mut Text, moment: Moment) -> Result<(), NoMemory>
    ensures { OnOk result (text.new ≡ text.old ++ moment_text moment) }
{
    let bytes = print_moment(moment.ticks());
    match std::str::from_utf8(&bytes) {
        Ok(shown) => text.append(shown),
        Err(_) => unreachable!(),
    }
}

/// Puts the header date of a second behind a text.
pub(crate) fn append_date(text: &mut Text, second: Second) -> Result<(), NoMemory>
    ensures { OnOk result (text.new ≡ text.old ++ date_text second) }
{
    let bytes = print_date(second.ticks());
    match std::str::from_utf8(&bytes) {
        Ok(shown) => text.append(shown),
        Err(_) => unreachable!(),
    }
}
