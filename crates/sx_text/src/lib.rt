//! Texts that are read back exactly, with the place of their fault: what it is to read a form of text, readers made
//! of readers, and readers of literals, of numbers and of texts with escapes.
#![tactic(auto)]

mod digit;
mod digits_reader;
mod escaped_reader;
mod fault;
mod hex_reader;
mod literal_reader;
mod name_reader;
mod number_reader;
mod theorems;

pub use digits_reader::{digits, digits_behind};
pub use escaped_reader::{Spot, escaped_text, escaped_text_behind, spot_after};
pub use fault::{Fault, Unread};
pub use hex_reader::{hex_digits, hex_digits_behind};
pub use literal_reader::{literal, next_is};
pub use name_reader::try_name;
pub use number_reader::{number, number_behind};
pub use theorems::{
    Form, FormBehind, State, TwoForms, choices_are_read, digits_are_read, escaped_texts_are_read,
    hex_digits_are_read, literals_are_read, machines_read, made_values_are_read, names_are_read,
    numbers_are_read, pairs_are_read, values_are_read, whole_characters_are_utf8,
    whole_texts_are_read,
};
