//! Moments as headers show them.
ghost use Rattle.std.specs.Prelude.{◌≡◌};
ghost use Rattle.sx_base.specs.Date.{date_text};
ghost use Rattle.sx_base.specs.Moment.{moment_text};

use sx_base::{print_date, print_moment};
use sx_moment::Moment;

/// The header date of the second in which a moment lies.
pub(crate) fn date_text(at: Moment) -> [u8; 29]
    ensures { result ≡ date_text at }
{
    print_date(at.ticks())
}

/// The text of a moment.
pub(crate) fn moment_text(at: Moment) -> [u8; 28]
    ensures { result ≡ moment_text at }
{
    print_moment(at.ticks())
}
