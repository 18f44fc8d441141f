//! The text of a moment.
ghost use Rattle.std.specs.Prelude.{◌≡◌, ◌≤◌, ◌+◌, ◌%◌, ℕ, List, pos};
ghost use Rattle.sx_base.specs.Moment.{greatest_written, fields_text, IsCivilTime, IsWritten, moment_text};
ghost use Rattle.sx_base.specs.Moment.{IsMomentText};

use jiff::Timestamp;
use jiff::civil::DateTime;
use jiff::tz::Offset;

/// The code of the last decimal digit.
pub(crate) fn digit(number: u32) -> u8
    ensures { result ≡ 48 + number % 10 }
{
    b'0' + (number % 10) as u8
}

/// The text of a civil time of which these are the fields.
#[tactic(auto, unfolding(crate::specs::Moment::fields_text))]
fn print_fields(
    year: u32,
    month: u32,
    day: u32,
    hour: u32,
    minute: u32,
    second: u32,
    ticks: u32,
) -> [u8; 28]
    ensures { result ≡ fields_text ((year, (month, day)), ((hour, (minute, second)), ticks)) }
{
    [
        digit(year / 10 / 10 / 10),
        digit(year / 10 / 10),
        digit(year / 10),
        digit(year),
        b'-',
        digit(month / 10),
        digit(month),
        b'-',
        digit(day / 10),
        digit(day),
        b'T',
        digit(hour / 10),
        digit(hour),
        b':',
        digit(minute / 10),
        digit(minute),
        b':',
        digit(second / 10),
        digit(second),
        b'.',
        digit(ticks / 10 / 10 / 10 / 10 / 10 / 10),
        digit(ticks / 10 / 10 / 10 / 10 / 10),
        digit(ticks / 10 / 10 / 10 / 10),
        digit(ticks / 10 / 10 / 10),
        digit(ticks / 10 / 10),
        digit(ticks / 10),
        digit(ticks),
        b'Z',
    ]
}

/// The civil time of a moment, in UTC.
fn civil_time(at: u64) -> DateTime
    requires { at ≤ greatest_written }
    ensures { IsCivilTime result at }
{
    match Timestamp::from_nanosecond(at as i128 * 100) {
        Ok(instant) => Offset::UTC.to_datetime(instant),
        Err(_) => unreachable!(),
    }
}

/// The year of a moment's civil time.
fn year_of(time: DateTime, at: u64) -> u16
    requires { IsCivilTime time at }
    ensures { pos result ≡ time.date.year }
{
    match u16::try_from(time.year()) {
        Ok(year) => year,
        Err(_) => unreachable!(),
    }
}

/// The text of a moment, `YYYY-MM-DDThh:mm:ss.fffffffZ`, in UTC and to a tick of 100 ns.
pub fn print_moment(at: u64) -> [u8; 28]
    requires { at ≤ greatest_written }
    ensures { IsMomentText result at }
{
    let time = civil_time(at);
    let plain = time.to_plain();
    print_fields(
        year_of(time, at) as u32,
        plain.date.month as u32,
        plain.date.day as u32,
        plain.time.hour as u32,
        plain.time.minute as u32,
        plain.time.second as u32,
        plain.time.subsec_nanosecond / 100,
    )
}

/// The law of the texts of moments: `moment_text` is the one text that a moment has in the calendar of jiff. It does
/// nothing.
pub fn moments_have_one_text()
    ensures only { (text : List ℕ) (at : ℕ) → IsMomentText text at → text ≡ moment_text at }
    ensures some { (at : ℕ) → IsWritten at → IsMomentText (moment_text at) at }
{}
