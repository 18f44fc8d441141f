//! The laws of reading.

ghost use Rattle.sx_decode.specs.Laws.{RequestsAreDetermined, TableIsExact, RowsAreApart};

/// The law of reading: each request spells exactly one call or has exactly one first refusal, never both. It does
/// nothing.
pub fn requests_are_determined()
    ensures one { RequestsAreDetermined }
{}

/// The law of the table of calls: the rows that the code searches are those of the definition. It does nothing.
pub fn table_is_exact()
    ensures { TableIsExact }
{}

/// The law of its rows: a request fits at most one of them. It does nothing.
pub fn rows_are_apart()
    ensures { RowsAreApart }
{}
