//! The command that the words of the command line are.
ghost use Rattle.std.specs.Prelude.{◌≡◌, ◌↔◌, ◌∷◌, [], ℕ, List, true, false, IfOk, IsErrOf, length, map};
ghost use Rattle.std.specs.String.{string_bytes};
ghost use Rattle.sx_names.specs.Names.{is_share_name};
ghost use Rattle.sharebox.specs.declared.command.WordsFault.TheVariants as WordsFault;
ghost use Rattle.sharebox.specs.Command.{IsCommand, IsSession, IsNoCommand, IsNoSession};
ghost use Rattle.sharebox.specs.Conn.{IsNoConn, SpellsConn};
ghost use Rattle.sx_run.specs.Words.{IsNoServe};

use std::alloc::Global;
use sx_key::{Account, AccountFault};
use sx_names::{ShareName, Unnamed};
use sx_run::{ServeWords, WordsFault as ServeFault, serve_words};
use sx_tool::{Tool, tool_of};

/// What the program is to do.
#[derive(Drop)]
pub enum Command {
    /// `session SHARE`: make a share of this name, and serve one session on it.
    Session(ShareName),
    /// `conn ACCOUNT KEY`: serve one connection, of requests that are signed for the account.
    Conn(Account),
    /// `serve ..`: serve the links of two ports, of signed requests at one and of sessions at the other.
    Serve(ServeWords),
    /// `sign ACCOUNT KEY`: sign the head of a request.
    Sign(Account),
    /// `check ACCOUNT KEY TICKS`: check a signed head at a moment, in units of 100 ns since 1970.
    Check(Account, u64),
}

/// Why words gave no command.
#[derive(Clone, Copy, Debug, PartialEq, Eq)]
pub enum WordsFault {
    /// The words are no command.
    Unknown,
    /// Out of memory.
    NoMemory,
}

/// The command that the words are. `Unknown` comes only where they are none.
pub fn command_of(alloc: Global, words: &[String]) -> Result<Command, WordsFault>
    ensures command { IfOk result (λ command. IsCommand command (map string_bytes words.now)) }
    ensures fault { IsErrOf result WordsFault.Unknown → IsNoCommand (map string_bytes words.now) }
{
    match session_share(alloc, words) {
        Ok(share) => Ok(Command::Session(share)),
        Err(WordsFault::NoMemory) => Err(WordsFault::NoMemory),
        Err(WordsFault::Unknown) => other_command(alloc, words),
    }
}

/// The command of words that are not `session SHARE`.
fn other_command(alloc: Global, words: &[String]) -> Result<Command, WordsFault>
    requires { IsNoSession (map string_bytes words.now) }
    ensures command { IfOk result (λ command. IsCommand command (map string_bytes words.now)) }
    ensures fault { IsErrOf result WordsFault.Unknown → IsNoCommand (map string_bytes words.now) }
{
    match conn_account(alloc, words) {
        Ok(account) => Ok(Command::Conn(account)),
        Err(WordsFault::NoMemory) => Err(WordsFault::NoMemory),
        Err(WordsFault::Unknown) => serve_command(alloc, words),
    }
}

/// The account of the words `conn ACCOUNT KEY`. `Unknown` is for all other words.
fn conn_account(alloc: Global, words: &[String]) -> Result<Account, WordsFault>
    ensures { SpellsConn result (map string_bytes words.now) }
{
    match words.len() {
        3 => three(alloc, words),
        _ => Err(WordsFault::Unknown),
    }
}

fn three(alloc: Global, words: &[String]) -> Result<Account, WordsFault>
    requires { length words.now ≡ 3 }
    ensures { SpellsConn result (map string_bytes words.now) }
{
    conn_of(
        alloc,
        words[0].as_str(),
        words[1].as_bytes(),
        words[2].as_bytes(),
    )
}

fn conn_of(alloc: Global, verb: &str, name: &[u8], key: &[u8]) -> Result<Account, WordsFault>
    ensures { SpellsConn result (verb.now ∷ name.now ∷ key.now ∷ []) }
{
    if verb != "conn" {
        return Err(WordsFault::Unknown);
    }
    match Account::read(alloc, name, key) {
        Ok(account) => Ok(account),
        Err(AccountFault::NoMemory) => Err(WordsFault::NoMemory),
        Err(_) => Err(WordsFault::Unknown),
    }
}

/// The command of words that are neither `session SHARE` nor `conn ACCOUNT KEY`.
fn serve_command(alloc: Global, words: &[String]) -> Result<Command, WordsFault>
    requires session { IsNoSession (map string_bytes words.now) }
    requires conn { IsNoConn (map string_bytes words.now) }
    ensures command { IfOk result (λ command. IsCommand command (map string_bytes words.now)) }
    ensures fault { IsErrOf result WordsFault.Unknown → IsNoCommand (map string_bytes words.now) }
{
    match serve_words(alloc, words) {
        Ok(serve) => Ok(Command::Serve(serve)),
        Err(ServeFault::NoMemory) => Err(WordsFault::NoMemory),
        Err(ServeFault::Unknown) => tool_command(alloc, words),
    }
}

/// The command of words that are neither `session SHARE`, `conn ACCOUNT KEY` nor `serve ..`.
fn tool_command(alloc: Global, words: &[String]) -> Result<Command, WordsFault>
    requires session { IsNoSession (map string_bytes words.now) }
    requires conn { IsNoConn (map string_bytes words.now) }
    requires serve { IsNoServe (map string_bytes words.now) }
    ensures command { IfOk result (λ command. IsCommand command (map string_bytes words.now)) }
    ensures fault { IsErrOf result WordsFault.Unknown → IsNoCommand (map string_bytes words.now) }
{
    match tool_of(alloc, words) {
        Tool::Sign(account) => Ok(Command::Sign(account)),
        Tool::Check(account, now) => Ok(Command::Check(account, now)),
        Tool::Unknown => Err(WordsFault::Unknown),
        Tool::NoMemory => Err(WordsFault::NoMemory),
    }
}

/// The share of the words `session SHARE`. `Unknown` is for all other words.
fn session_share(alloc: Global, words: &[String]) -> Result<ShareName, WordsFault>
    ensures share { IfOk result (λ share. IsSession (map string_bytes words.now) share) }
    ensures fault { IsErrOf result WordsFault.Unknown → IsNoSession (map string_bytes words.now) }
    ensures memory { IsErrOf result WordsFault.NoMemory →
        (share : List ℕ) × IsSession (map string_bytes words.now) share }
{
    if words.len() != 2 {
        return Err(WordsFault::Unknown);
    }
    if words[0].as_str() != "session" {
        return Err(WordsFault::Unknown);
    }
    read_share(alloc, words[1].as_bytes())
}

fn read_share(alloc: Global, bytes: &[u8]) -> Result<ShareName, WordsFault>
    ensures name { IfOk result (λ n. (n ≡ bytes.now) × (is_share_name bytes.now ≡ true)) }
    ensures fault { IsErrOf result WordsFault.Unknown ↔ (is_share_name bytes.now ≡ false) }
{
    match ShareName::read(alloc, bytes) {
        Ok(name) => Ok(name),
        Err(Unnamed::Fault(_)) => Err(WordsFault::Unknown),
        Err(Unnamed::NoMemory) => Err(WordsFault::NoMemory),
    }
}
