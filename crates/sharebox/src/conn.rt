//! One connection over the program's input and output.
ghost use Rattle.std.specs.Prelude.{◌≡◌, ◌+◌, IfOk, length};
ghost use mathlib.Core.List.{IsPrefix};
ghost use Rattle.sx_book.specs.OneHistory.{history_of};
ghost use Rattle.sx_book.specs.Passes.{first_pass};
ghost use Rattle.sx_rest_door.specs.Asking.{KeepsHistory, own_places_behind};
ghost use Rattle.sx_rest_door.specs.Conversation.{RestConversation};
ghost use Rattle.std.specs.Prelude.{◌++◌};
ghost use Rattle.sharebox.specs.Conn.{HasSplit, IsConnRun};
ghost use Rattle.sharebox.specs.Limits.{history_limit, input_budget};

use crate::run::{
    HISTORY_LIMIT, INPUT_BUDGET, LOOPBACK, NO_MEMORY, SESSION_CALLER, let_go, status_after_close,
};
use std::alloc::Global;
use std::sync::Wait;
use sx_base::{Both, Clock, NoMemory, Random, Sink, Source};
use sx_book::{ConnReport, Office, Pass};
use sx_key::Account;
use sx_rest_door::serve_conn;

/// Takes a pass for the connection, of number 1.
fn open<W: Wait>(rt: &W, office: &Office, main: &mut Pass) -> Result<Pass, NoMemory>
    requires { main.old ≡ first_pass office.now history_limit }
    ensures ok { IfOk result (λ pass. HasSplit office.now main.new pass) }
    ensures own { main.new.office ≡ office.now }
{
    let Ok(pass) = office.split(rt, main) else {
        return Err(NoMemory);
    };
    if pass.number() != SESSION_CALLER {
        office.meet(main, pass);
        return Err(NoMemory);
    }
    Ok(pass)
}

/// Serves one connection over input and output.
fn serve_streams<W: Wait, S: Source, K: Sink, C: Clock, R: Random>(
    alloc: Global,
    rt: &W,
    office: &Office,
    pass: &mut Pass,
    account: &Account,
    input: &mut S,
    out: &mut K,
    clock: &mut C,
    random: &mut R,
) -> ConnReport
    requires { pass.old.office ≡ office.now }
    ensures conversation { RestConversation C.ticks R.draws (K.wrote out.old) (K.wrote out.new)
        (record {
          who = pass.old.number;
          account = account.now;
          budget = input_budget;
          history = history_of pass.new;
          from = length pass.old.seen;
        })
        (record {
          sides = record { left = S.left input.old; reads = S.read_count input.old; writes = K.write_count out.old };
          clock = clock.old;
          random = random.old;
        })
        (record {
          sides = record { left = S.left input.new; reads = S.read_count input.new; writes = K.write_count out.new };
          clock = clock.new;
          random = random.new;
        }) result }
    ensures grown { IsPrefix pass.old.seen pass.new.seen }
    ensures history { KeepsHistory pass.old pass.new }
    ensures pass { pass.new ≡ record pass.old {
      seen = pass.new.seen;
      mine = pass.old.mine ++ own_places_behind pass.old pass.new.seen;
    } }
{
    let mut link = Both {
        source: input,
        sink: out,
        peer: LOOPBACK,
    };
    serve_conn(
        alloc,
        rt,
        office,
        pass,
        &mut link,
        clock,
        random,
        account,
        INPUT_BUDGET,
    )
}

/// Serves one connection over input and output through a pass of its own of a new office, and closes the office.
pub(crate) fn conn<W: Wait, S: Source, K: Sink, C: Clock, R: Random>(
    alloc: Global,
    rt: &W,
    account: &Account,
    input: &mut S,
    out: &mut K,
    clock: &mut C,
    random: &mut R,
) -> u8
    ensures { IsConnRun K.wrote C.ticks R.draws account.now out.old out.new
        (record {
          sides = record { left = S.left input.old; reads = S.read_count input.old; writes = K.write_count out.old };
          clock = clock.old;
          random = random.old;
        })
        (record {
          sides = record { left = S.left input.new; reads = S.read_count input.new; writes = K.write_count out.new };
          clock = clock.new;
          random = random.new;
        }) result }
{
    let Ok((office, mut main)) = Office::begin(alloc, HISTORY_LIMIT) else {
        return NO_MEMORY;
    };
    match open(rt, &office, &mut main) {
        Ok(mut pass) => {
            let report = serve_streams(
                alloc, rt, &office, &mut pass, account, input, out, clock, random,
            );
            office.meet(&mut main, pass);
            status_after_close(office.close(rt, main), report)
        }
        Err(NoMemory) => {
            let_go(office.close(rt, main));
            NO_MEMORY
        }
    }
}
