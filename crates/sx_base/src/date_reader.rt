//! Reading a header date at the front, with the place of its fault.
ghost use Rattle.std.specs.Prelude.{codes, ◌≡◌, ◌<◌, IfOk};
ghost use Rattle.httpdate.specs.Calendar.{days_from_civil, IsCivilDate};
ghost use Rattle.sx_text.specs.Texts.{IsReading};
ghost use Rattle.sx_text.specs.Readers.{pair_at};
ghost use Rattle.sx_text.specs.Numbers.{IsFrom};
ghost use Rattle.sx_text.specs.Digits.{digits_text};
ghost use Rattle.sx_text.specs.Named.{named_at, named_after};
ghost use Rattle.sx_text.specs.Given.{Reads};
ghost use Rattle.sx_base.specs.Moment.{IsWritten};
ghost use Rattle.sx_base.specs.Date.{IsDated, weekday_name, month_name, date_text};
ghost use Rattle.sx_base.specs.DateReader.{any_weekday, has_day, falls_on, day_after, dated_at, clock_after};
ghost use Rattle.sx_base.specs.DateReader.{IsDatedTime, moment_shown, date_at};

use crate::moment::digit;
use crate::moment_reader::{
    TimeOfDay, greatest_day, greatest_month, moment_with, read_time, small, year_of,
};
use jiff_core::civil;
use sx_text::{Unread, digits_behind, literal, try_name};

/// A weekday counted from Thursday, and the day, the month and the year.
type Dated = (u64, (u64, (u64, u64)));

#[tactic(auto, unfolding(crate::specs::Date::weekday_name))]
fn weekday_letters(weekday: u64) -> [u8; 3]
    requires { weekday < 7 }
    ensures { result ≡ weekday_name weekday }
{
    match weekday {
        0 => *b"Thu",
        1 => *b"Fri",
        2 => *b"Sat",
        3 => *b"Sun",
        4 => *b"Mon",
        5 => *b"Tue",
        6 => *b"Wed",
        _ => unreachable!(),
    }
}

#[tactic(auto, unfolding(crate::specs::Date::month_name))]
fn month_letters(month: u64) -> [u8; 3]
    requires { IsFrom 1 12 month }
    ensures { result ≡ month_name month }
{
    match month {
        1 => *b"Jan",
        2 => *b"Feb",
        3 => *b"Mar",
        4 => *b"Apr",
        5 => *b"May",
        6 => *b"Jun",
        7 => *b"Jul",
        8 => *b"Aug",
        9 => *b"Sep",
        10 => *b"Oct",
        11 => *b"Nov",
        12 => *b"Dec",
        _ => unreachable!(),
    }
}

fn year_digits(year: u32) -> [u8; 4]
    ensures { result ≡ digits_text 4 year }
{
    [
        digit(year / 10 / 10 / 10),
        digit(year / 10 / 10),
        digit(year / 10),
        digit(year),
    ]
}

/// How many days lie between 1970-01-01 and the day.
#[tactic(auto, using(crate::proofs::Calendars::same_number))]
fn day_number(year: u64, month: u64, day: u64) -> u64
    requires { IsCivilDate year month day }
    ensures { result ≡ days_from_civil year month day }
{
    match civil::Date::new(year_of(year), small(month), small(day)) {
        Ok(date) => date.to_unix_epoch_day() as u64,
        Err(_) => unreachable!(),
    }
}

/// Whether the month has the day in a leap year.
fn is_day_of(day: u64, month: u64) -> bool
    requires { IsFrom 1 12 month }
    ensures { result ≡ has_day day month }
{
    day <= civil::days_in_month(1972, month as u8) as u64
}

/// Whether the year has the day, no later than that of the greatest moment, and on this weekday.
#[tactic(auto, using(crate::proofs::DateReading::day_of_month))]
fn is_dated(weekday: u64, day: u64, month: u64, year: u64) -> bool
    requires day { IsFrom 1 31 day }
    requires month { IsFrom 1 12 month }
    requires year { IsFrom 1970 9892 year }
    ensures { result ≡ falls_on weekday day month year }
{
    if month > greatest_month(year) || day > greatest_day(year, month) {
        return false;
    }
    day_number(year, month, day) % 7 == weekday
}

#[tactic(auto, using(sx_text::proofs::NameTexts::named_found, sx_text::proofs::NameTexts::named_passed, sx_text::proofs::NameTexts::named_none, sx_text::proofs::NameTexts::named_begin))]
fn read_weekday(bytes: &[u8]) -> Result<(u64, &[u8]), Unread>
    ensures { Reads (λ x. (x.0, x.1.now)) result (named_at weekday_name any_weekday 7 0 bytes.now) }
{
    let mut left = bytes.len();
    for weekday in 0..7u64 {
        match try_name(bytes, true, &weekday_letters(weekday), left) {
            Ok(rest) => return Ok((weekday, rest)),
            Err(unread) => left = unread.left,
        }
    }
    Err(Unread { left })
}

#[tactic(auto, using(sx_text::proofs::NameTexts::named_found, sx_text::proofs::NameTexts::named_passed, sx_text::proofs::NameTexts::named_none, sx_text::proofs::NameTexts::named_begin))]
fn read_month(bytes: &[u8], day: u64) -> Result<(u64, &[u8]), Unread>
    ensures reading { Reads (λ x. (x.0, x.1.now)) result (named_at month_name (has_day day) 12 1 bytes.now) }
    ensures value { IfOk result (λ x. IsFrom 1 12 x.0) }
{
    let mut left = bytes.len();
    for month in 1..13u64 {
        match try_name(bytes, is_day_of(day, month), &month_letters(month), left) {
            Ok(rest) => return Ok((month, rest)),
            Err(unread) => left = unread.left,
        }
    }
    Err(Unread { left })
}

#[tactic(auto, using(sx_text::proofs::NameTexts::named_found, sx_text::proofs::NameTexts::named_passed, sx_text::proofs::NameTexts::named_none, sx_text::proofs::NameTexts::named_begin))]
fn read_year(bytes: &[u8], weekday: u64, day: u64, month: u64) -> Result<(u64, &[u8]), Unread>
    requires day { IsFrom 1 31 day }
    requires month { IsFrom 1 12 month }
    ensures { Reads (λ x. (x.0, x.1.now)) result
        (named_at (digits_text 4) (falls_on weekday day month) 7923 1970 bytes.now) }
{
    let mut left = bytes.len();
    for year in 1970..9893u64 {
        let is_allowed = is_dated(weekday, day, month, year);
        match try_name(bytes, is_allowed, &year_digits(year as u32), left) {
            Ok(rest) => return Ok((year, rest)),
            Err(unread) => left = unread.left,
        }
    }
    Err(Unread { left })
}

#[tactic(auto, unfolding(sx_text::specs::Named::named_after))]
fn read_month_behind(bytes: &[u8], day: u64) -> Result<(u64, &[u8]), Unread>
    ensures reading { Reads (λ x. (x.0, x.1.now)) result
        (named_after (codes " ") month_name (has_day day) 12 1 bytes.now) }
    ensures value { IfOk result (λ x. IsFrom 1 12 x.0) }
{
    let rest = literal(bytes, b" ")?;
    read_month(rest, day)
}

#[tactic(auto, unfolding(sx_text::specs::Named::named_after))]
fn read_year_behind(
    bytes: &[u8],
    weekday: u64,
    day: u64,
    month: u64,
) -> Result<(u64, &[u8]), Unread>
    requires day { IsFrom 1 31 day }
    requires month { IsFrom 1 12 month }
    ensures { Reads (λ x. (x.0, x.1.now)) result
        (named_after (codes " ") (digits_text 4) (falls_on weekday day month) 7923 1970 bytes.now) }
{
    let rest = literal(bytes, b" ")?;
    read_year(rest, weekday, day, month)
}

/// Day, month and year behind a weekday.
#[tactic(auto, unfolding(crate::specs::DateReader::day_after))]
fn read_day_behind(bytes: &[u8], weekday: u64) -> Result<((u64, (u64, u64)), &[u8]), Unread>
    ensures { Reads (λ x. (x.0, x.1.now)) result (day_after weekday bytes.now) }
{
    let (day, rest) = digits_behind(bytes, b", ", 1, 1, 31)?;
    let (month, rest) = read_month_behind(rest, day)?;
    let (year, rest) = read_year_behind(rest, weekday, day, month)?;
    Ok(((day, (month, year)), rest))
}

#[tactic(auto, unfolding(crate::specs::DateReader::dated_at))]
fn read_dated(bytes: &[u8]) -> Result<(Dated, &[u8]), Unread>
    ensures { Reads (λ x. (x.0, x.1.now)) result (dated_at bytes.now) }
{
    let (weekday, rest) = read_weekday(bytes)?;
    let (day, rest) = read_day_behind(rest, weekday)?;
    Ok(((weekday, day), rest))
}

#[tactic(auto, unfolding(crate::specs::DateReader::clock_after))]
fn read_clock_behind(bytes: &[u8], dated: Dated) -> Result<(TimeOfDay, &[u8]), Unread>
    ensures { Reads (λ x. (x.0, x.1.now)) result (clock_after dated bytes.now) }
{
    let (_, (day, (month, year))) = dated;
    let (clock, rest) = read_time(bytes, b" ", (year, (month, day)))?;
    let rest = literal(rest, b" GMT")?;
    Ok((clock, rest))
}

fn read_shown(bytes: &[u8]) -> Result<((Dated, TimeOfDay), &[u8]), Unread>
    ensures { Reads (λ x. (x.0, x.1.now)) result (pair_at dated_at (λ x. clock_after x) bytes.now) }
{
    let (dated, rest) = read_dated(bytes)?;
    let (clock, rest) = read_clock_behind(rest, dated)?;
    Ok(((dated, clock), rest))
}

/// The moment that is shown.
#[tactic(auto, using(crate::proofs::DateReading::shown_fields))]
fn moment_shown_by(shown: (Dated, TimeOfDay)) -> u64
    requires { IsDatedTime shown }
    ensures moment { result ≡ moment_shown shown }
    ensures bound { IsWritten result }
{
    let ((_, (day, (month, year))), clock) = shown;
    moment_with(((year, (month, day)), (clock, 0)))
}

/// Takes a header date, as `Sun, 06 Nov 1994 08:49:37 GMT` (IMF-fixdate, RFC 9110), 29 bytes, from the front of the
/// bytes, and gives the moment at which its second begins and the bytes behind it. The first such date is
/// `Thu, 01 Jan 1970 00:00:00 GMT`, the last `Tue, 08 Mar 9892 12:33:49 GMT`. `Unread` tells how many bytes are left
/// behind the longest prefix that begins one.
#[tactic(auto, unfolding(crate::specs::DateReader::date_at))]
pub fn take_date(bytes: &[u8]) -> Result<(u64, &[u8]), Unread>
    ensures reading { Reads (λ x. (x.0, x.1.now)) result (date_at bytes.now) }
    ensures bound { IfOk result (λ x. IsWritten x.0) }
{
    let (shown, rest) = read_shown(bytes)?;
    Ok((moment_shown_by(shown), rest))
}

/// The law of dates at the front: header dates are read exactly. It does nothing.
pub fn dates_are_read()
    ensures { IsReading date_text IsDated date_at }
{}
