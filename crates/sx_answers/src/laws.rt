//! The laws on what is answered at each door, each the contract of a function that does nothing.

ghost use Rattle.std.specs.Prelude.{◌≡◌, true};
ghost use Rattle.sx_answers.specs.SessionReply.{is_session_door, is_session_reply};
ghost use Rattle.sx_call.specs.Calls.{door_of};
ghost use Rattle.sx_call.specs.declared.doors.Door.TheVariants.{Rest};
ghost use Rattle.sx_call.specs.declared.entries.Entry.{Entry};
ghost use Rattle.sx_reply.specs.PrintedReply.{is_reply_printed};
ghost use Rattle.sx_spec.specs.Account.{Account};
ghost use Rattle.sx_spec.specs.Step.{step};

/// A session's answer prints each reply to a call of the session's door: a start, an end, or a call in a session. In
/// any account it is that call's own reply, or a refusal that has a word.
pub fn session_replies_are_printed()
    ensures { (a : Account) (e : Entry)
        → is_session_door (door_of e.call) ≡ true → is_session_reply (step a e).1 ≡ true }
{}

/// A REST answer prints each reply to a call of the REST door. In any account it is no session's reply, and a refusal
/// has a status and a code.
pub fn rest_replies_are_printed()
    ensures { (a : Account) (e : Entry) → door_of e.call ≡ Rest → is_reply_printed (step a e).1 ≡ true }
{}
