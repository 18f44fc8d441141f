//! Shared Key: the text that a request signs, its signature, and the check of a signed request.
#![tactic(auto)]

mod account;
mod canonical;
mod checking;
mod digest;
mod fault;
mod fields;
mod laws;
mod query;
mod reading;
mod sent;
mod signing;
mod texts;

pub use account::{Account, AccountFault};
pub use checking::{DATE_WINDOW, check};
pub use digest::hmac;
pub use fault::AuthFault;
pub use laws::{signed_heads_pass, texts_are_ordered};
pub use signing::{sign, string_to_sign};
