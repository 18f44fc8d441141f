//! Moments in headers and in the query.

ghost use Rattle.std.specs.Prelude.{◌≡◌};
ghost use Rattle.sx_decode.specs.Moments.{moment_of};

use sx_base::read_moment;
use sx_moment::Moment;

/// The moment that a text names: `YYYY-MM-DDThh:mm:ss.fffffffZ`, 28 bytes.
pub fn moment_of(text: &[u8]) -> Option<Moment>
    ensures { result ≡ moment_of text.now }
{
    match read_moment(text) {
        Ok(ticks) => Some(Moment::of(ticks)),
        Err(_) => None,
    }
}
