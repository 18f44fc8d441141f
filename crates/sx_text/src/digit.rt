//! A decimal digit.
/// What a byte does to a number: it ends it, goes on with a value, or can't stand there.
#[derive(Clone, Copy, Debug, PartialEq, Eq)]
pub enum Digit {
    Last(u64),
    More(u64),
    Wrong,
}
