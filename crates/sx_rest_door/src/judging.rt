//! The call of a request, or why it has none.
ghost use Rattle.sx_rest_door.specs.Asking.{IsJudged, TellsFault};

use std::alloc::Global;
use sx_call::{Call, Syntax};
use sx_decode::{Unread, call_of};
use sx_http::Request;
use sx_key::{Account, AuthFault, check};
use sx_reply::AuthText;

/// Why a request has no call.
#[derive(Debug, Drop)]
pub enum Uncalled {
    /// Its signature isn't accepted.
    NotSigned(AuthText),
    /// It is no call.
    NoCall(Syntax),
    /// No memory was left to check or to read it.
    NotRead,
}

/// Why a request with this fault of its signature has no call.
fn not_signed(fault: AuthFault) -> Uncalled
    ensures { TellsFault fault result }
{
    match fault {
        AuthFault::NoHeader => Uncalled::NotSigned(AuthText::NoHeader),
        AuthFault::BadHeader => Uncalled::NotSigned(AuthText::BadHeader),
        AuthFault::OtherAccount => Uncalled::NotSigned(AuthText::OtherAccount),
        AuthFault::NoDate => Uncalled::NotSigned(AuthText::NoDate),
        AuthFault::BadDate => Uncalled::NotSigned(AuthText::BadDate),
        AuthFault::TooOld { dated, now } => Uncalled::NotSigned(AuthText::TooOld { dated, now }),
        AuthFault::TooNew { dated, now } => Uncalled::NotSigned(AuthText::TooNew { dated, now }),
        AuthFault::Differs => Uncalled::NotSigned(AuthText::Differs),
        AuthFault::NoMemory => Uncalled::NotRead,
    }
}

/// The call that a request spells, where its signature is accepted at a moment. The signature is checked first.
pub(crate) fn judge(
    alloc: Global,
    account: &Account,
    now: u64,
    request: Request,
) -> Result<Call, Uncalled>
    ensures { IsJudged account.now request now result }
{
    if let Err(fault) = check(alloc, &request.head, account, now) {
        return Err(not_signed(fault));
    }
    match call_of(alloc, request) {
        Ok(call) => Ok(call),
        Err(Unread::Syntax(syntax)) => Err(Uncalled::NoCall(syntax)),
        Err(Unread::NoMemory) => Err(Uncalled::NotRead),
    }
}
