//! A file share service, which serves requests and sessions at two ports, or a session or a connection over its input
//! and output, and signs and checks heads of requests.
#![tactic(auto)]

mod command;
mod conn;
mod run;
#[cfg(test)]
mod tests;

use std::process::ExitCode;
use std::{env, io};
use sx_base::{Input, LoopbackListener, Output, SystemClock, SystemRandom};

/// The status where the words can't be had.
const NO_WORDS: u8 = 1;

/// Makes the program's input, output, clock, random source and listeners, and runs it by the words of the command line.
fn main(rt: HostRuntime) -> ExitCode {
    let alloc = rt.alloc();
    let Ok(args) = env::args(&rt) else {
        return ExitCode::from(NO_WORDS);
    };
    let Ok(words) = args.skip(1).collect::<Vec<String>>(alloc) else {
        return ExitCode::from(NO_WORDS);
    };
    let mut input = Input::new(rt.reader());
    let mut out = Output::new(io::writer(&rt));
    let mut clock = SystemClock::new(rt);
    let mut random = SystemRandom::new(rt);
    let mut rest = LoopbackListener::new(rt);
    let mut smb = LoopbackListener::new(rt);
    let status = run::run(
        alloc,
        &rt,
        words.as_slice(),
        &mut input,
        &mut out,
        &mut clock,
        &mut random,
        &mut rest,
        &mut smb,
    );
    ExitCode::from(status)
}
