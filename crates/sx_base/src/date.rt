//! Header dates: the text of a moment, and the moment of a text.
ghost use Rattle.std.specs.Prelude.{◌≡◌, ◌≤◌, ◌*◌, ◌/◌, ℕ, List, Some, None, option_map};
ghost use Rattle.httpdate.specs.Date.{parse_secs};
ghost use Rattle.sx_base.specs.Moment.{greatest_written, IsWritten};
ghost use Rattle.sx_base.specs.Date.{date_text, IsDateOf, ReadsDate};

use httpdate::HttpDate;

/// The header date (IMF-fixdate, RFC 9110) of the second in which the moment lies.
pub fn print_date(at: u64) -> [u8; 29]
    requires { at ≤ greatest_written }
    ensures { IsDateOf result at }
{
    match HttpDate::from_unix_secs(at / 10_000_000) {
        Ok(date) => date.to_bytes(),
        Err(_) => unreachable!(),
    }
}

/// The moment at which the second of a header date begins. All of the text has to be a date in one of the three formats
/// (IMF-fixdate, RFC 850, asctime), as `httpdate` reads them; `None` comes for any other text.
pub fn read_date(text: &[u8]) -> Option<u64>
    ensures shown { ReadsDate text.now result }
    ensures second { result ≡ option_map (λ seconds. seconds * 10_000_000) (parse_secs text.now) }
{
    match HttpDate::parse_ascii(text) {
        Ok(date) => Some(date.unix_secs() * 10_000_000),
        Err(_) => None,
    }
}

/// The law of dates: a printed date is read, and gives the beginning of the second in which the moment lies. It does
/// nothing.
pub fn printed_dates_are_read_back()
    ensures some { (text : List ℕ) (at : ℕ) → IsDateOf text at → ReadsDate text None → ⊥ }
    ensures same { (text : List ℕ) (at read : ℕ) → IsDateOf text at → ReadsDate text (Some read)
        → read ≡ at / 10_000_000 * 10_000_000 }
{}

/// The law of the texts of dates: `date_text` is the one header date that a moment has by `httpdate`. It does nothing.
pub fn moments_have_one_date()
    ensures only { (text : List ℕ) (at : ℕ) → IsDateOf text at → text ≡ date_text at }
    ensures some { (at : ℕ) → IsWritten at → IsDateOf (date_text at) at }
{}
