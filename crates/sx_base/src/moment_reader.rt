//! Reading the text of a moment, with the place of its fault.
ghost use Rattle.std.specs.Prelude.{◌≡◌, ◌<◌, ◌≤◌, ◌*◌, ℕ, List, Result, Ok, IfOk, pos};
ghost use Rattle.sx_text.specs.Texts.{IsReading};
ghost use Rattle.sx_text.specs.Given.{Reads};
ghost use Rattle.sx_base.specs.Moment.{Day, TimeOfDay, Fields, greatest_written, IsCivilTime, IsMoment, IsWritten};
ghost use Rattle.sx_base.specs.Moment.{moment_of, moment_text, IsMomentText};
ghost use Rattle.sx_base.specs.MomentReader.{is_last_day, month_most, day_most, hour_most, minute_most, second_most};
ghost use Rattle.sx_base.specs.MomentReader.{ticks_most, IsFields, IsCivil, Shows, day_at, time_at, ticks_at};
ghost use Rattle.sx_base.specs.MomentReader.{fields_at, moment_at, ReadsMoment};

use jiff::civil::DateTime;
use jiff::tz::Offset;
use jiff_core::civil;
use sx_text::{Unread, digits_behind, literal};

/// The bytes are no text of a moment: `at` is the length of their longest prefix that begins one.
#[derive(Clone, Copy, Debug, PartialEq, Eq)]
pub struct BadMoment {
    /// How many bytes the longest prefix has, at most 28.
    pub at: u64,
}

/// Year, month and day.
type Day = (u64, (u64, u64));

/// Hour, minute and second.
pub(crate) type TimeOfDay = (u64, (u64, u64));

/// A day, a time of the day, and the ticks of its second.
type Fields = (Day, (TimeOfDay, u64));

/// Whether it is the day of the greatest moment.
fn is_last(day: Day) -> bool
    ensures { result ≡ is_last_day day }
{
    day.0 == 9892 && (day.1.0 == 3 && day.1.1 == 8)
}

/// The greatest month of a year.
#[tactic(auto, unfolding(crate::specs::MomentReader::month_most))]
pub(crate) fn greatest_month(year: u64) -> u64
    ensures { result ≡ month_most year }
{
    if year == 9892 { 3 } else { 12 }
}

#[tactic(auto, unfolding(crate::specs::MomentReader::day_most))]
pub(crate) fn greatest_day(year: u64, month: u64) -> u64
    requires year { year ≤ 9892 }
    requires month { month ≤ 99 }
    ensures { result ≡ day_most year month }
{
    if year == 9892 && month == 3 {
        8
    } else {
        civil::days_in_month(year as i16, month as u8) as u64
    }
}

#[tactic(auto, unfolding(crate::specs::MomentReader::hour_most))]
fn greatest_hour(day: Day) -> u64
    ensures { result ≡ hour_most day }
{
    if is_last(day) { 12 } else { 23 }
}

#[tactic(auto, unfolding(crate::specs::MomentReader::minute_most))]
fn greatest_minute(day: Day, hour: u64) -> u64
    ensures { result ≡ minute_most day hour }
{
    if is_last(day) && hour == 12 { 33 } else { 59 }
}

#[tactic(auto, unfolding(crate::specs::MomentReader::second_most))]
fn greatest_second(day: Day, hour: u64, minute: u64) -> u64
    ensures { result ≡ second_most day hour minute }
{
    if is_last(day) && (hour == 12 && minute == 33) {
        49
    } else {
        59
    }
}

#[tactic(auto, unfolding(crate::specs::MomentReader::ticks_most))]
fn greatest_ticks(day: Day, clock: TimeOfDay) -> u64
    ensures { result ≡ ticks_most day clock }
{
    if is_last(day) && (clock.0 == 12 && (clock.1.0 == 33 && clock.1.1 == 49)) {
        4_967_295
    } else {
        9_999_999
    }
}

#[tactic(auto, unfolding(crate::specs::MomentReader::day_at), using(crate::proofs::MomentReading::month_most_is, crate::proofs::MomentReading::day_most_is))]
fn read_day(bytes: &[u8]) -> Result<(Day, &[u8]), Unread>
    ensures { Reads (λ x. (x.0, x.1.now)) result (day_at bytes.now) }
{
    let (year, rest) = digits_behind(bytes, b"", 3, 1970, 9892)?;
    let (month, rest) = digits_behind(rest, b"-", 1, 1, greatest_month(year))?;
    let (day, rest) = digits_behind(rest, b"-", 1, 1, greatest_day(year, month))?;
    Ok(((year, (month, day)), rest))
}

#[tactic(auto, unfolding(crate::specs::MomentReader::time_at), using(crate::proofs::MomentReading::hour_most_is, crate::proofs::MomentReading::minute_most_is, crate::proofs::MomentReading::second_most_is))]
pub(crate) fn read_time<'a>(
    bytes: &'a [u8],
    text: &[u8],
    day: Day,
) -> Result<(TimeOfDay, &'a [u8]), Unread>
    ensures { Reads (λ x. (x.0, x.1.now)) result (time_at text.now day bytes.now) }
{
    let (hour, rest) = digits_behind(bytes, text, 1, 0, greatest_hour(day))?;
    let (minute, rest) = digits_behind(rest, b":", 1, 0, greatest_minute(day, hour))?;
    let (second, rest) = digits_behind(rest, b":", 1, 0, greatest_second(day, hour, minute))?;
    Ok(((hour, (minute, second)), rest))
}

#[tactic(auto, unfolding(crate::specs::MomentReader::ticks_at), using(crate::proofs::MomentReading::ticks_most_is))]
fn read_ticks(bytes: &[u8], day: Day, clock: TimeOfDay) -> Result<(u64, &[u8]), Unread>
    ensures { Reads (λ x. (x.0, x.1.now)) result (ticks_at day clock bytes.now) }
{
    let (ticks, rest) = digits_behind(bytes, b".", 6, 0, greatest_ticks(day, clock))?;
    let rest = literal(rest, b"Z")?;
    Ok((ticks, rest))
}

#[tactic(auto, unfolding(crate::specs::MomentReader::fields_at))]
fn read_fields(bytes: &[u8]) -> Result<(Fields, &[u8]), Unread>
    ensures { Reads (λ x. (x.0, x.1.now)) result (fields_at bytes.now) }
{
    let (day, rest) = read_day(bytes)?;
    let (clock, rest) = read_time(rest, b"T", day)?;
    let (ticks, rest) = read_ticks(rest, day, clock)?;
    Ok(((day, (clock, ticks)), rest))
}

pub(crate) fn small(number: u64) -> i8
    requires { number < 100 }
    ensures { result ≡ pos number }
{
    number as i8
}

pub(crate) fn year_of(number: u64) -> i16
    requires { number < 10_000 }
    ensures { result ≡ pos number }
{
    number as i16
}

fn nanoseconds(ticks: u64) -> i32
    requires { ticks < 10_000_000 }
    ensures { result ≡ pos (100 * ticks) }
{
    (ticks * 100) as i32
}

/// The civil time with these fields.
fn civil_time_of(
    year: u64,
    month: u64,
    day: u64,
    hour: u64,
    minute: u64,
    second: u64,
    ticks: u64,
) -> DateTime
    requires { IsCivil year month day hour minute second ticks }
    ensures { Shows result year month day hour minute second ticks }
{
    match DateTime::new(
        year_of(year),
        small(month),
        small(day),
        small(hour),
        small(minute),
        small(second),
        nanoseconds(ticks),
    ) {
        Ok(time) => time,
        Err(_) => unreachable!(),
    }
}

/// The moment of a civil time in UTC.
fn moment_of(time: DateTime) -> u64
    requires { IsMoment time }
    ensures bound { result ≤ greatest_written }
    ensures moment { IsCivilTime time result }
{
    match Offset::UTC.to_timestamp(time) {
        Ok(instant) => (instant.as_nanosecond() / 100) as u64,
        Err(_) => unreachable!(),
    }
}

/// The moment of which these are the fields.
pub(crate) fn moment_with(fields: Fields) -> u64
    requires { IsFields fields }
    ensures moment { result ≡ moment_of fields }
    ensures bound { IsWritten result }
{
    let (day, (clock, ticks)) = fields;
    moment_of(civil_time_of(
        day.0, day.1.0, day.1.1, clock.0, clock.1.0, clock.1.1, ticks,
    ))
}

/// Takes the text of a moment, `YYYY-MM-DDThh:mm:ss.fffffffZ`, 28 bytes, in UTC, from 1970-01-01T00:00:00.0000000Z to
/// 9892-03-08T12:33:49.4967295Z, from the front of the bytes, and gives the moment and the bytes behind the text.
/// `Unread` tells how many bytes are left behind the longest prefix that begins the text of a moment.
#[tactic(auto, unfolding(crate::specs::MomentReader::moment_at))]
pub fn take_moment(bytes: &[u8]) -> Result<(u64, &[u8]), Unread>
    ensures reading { Reads (λ x. (x.0, x.1.now)) result (moment_at bytes.now) }
    ensures bound { IfOk result (λ x. IsWritten x.0) }
{
    let (fields, rest) = read_fields(bytes)?;
    Ok((moment_with(fields), rest))
}

/// The moment of which this is the text, as `take_moment` takes it, with nothing behind it. Any other bytes are
/// `BadMoment`.
pub fn read_moment(text: &[u8]) -> Result<u64, BadMoment>
    ensures { ReadsMoment text.now result }
{
    match take_moment(text) {
        Ok((at, [])) => Ok(at),
        Ok((_, rest)) => Err(BadMoment {
            at: (text.len() - rest.len()) as u64,
        }),
        Err(unread) => Err(BadMoment {
            at: (text.len() - unread.left) as u64,
        }),
    }
}

/// The law of moments: their texts are read exactly, and the text of a moment is read as that moment. It does nothing.
pub fn moments_are_read()
    ensures reading { IsReading moment_text IsWritten moment_at }
    ensures back { (text : List ℕ) (at : ℕ) (read : Result ℕ BadMoment) → IsWritten at → IsMomentText text at
        → ReadsMoment text read → read ≡ Ok at }
{}
