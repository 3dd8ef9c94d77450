//! How the program ends.

ghost use Rattle.std.specs.Prelude.{◌≡◌, IfErr, MatchResult, map, drop, string_bytes};
ghost use Rattle.std.specs.Process.{exit_status};
ghost use Rattle.std.specs.IoError.{error_kind};
ghost use Rattle.std.specs.Vec.Iter.{into_iter_items};
ghost use Rattle.top_call.specs.Statuses.{number_of, of_arguments, IsUnread};

use crate::statuses::Status;
use command_words::{UsageFault, Word, words_of};
use std::alloc::Global;
use std::env::{Args, Env};
use std::io::ErrorKind;
use std::process::ExitCode;
use std::{env, io};

/// How a call ended, and the store that it was given.
#[derive(Drop)]
pub struct Ended<S> {
    /// How it ended.
    pub status: Status,
    /// The store, after all that was done.
    pub store: S,
}

/// The status where a program's arguments can't be had.
fn unread_arguments(error: &io::Error) -> Status
    ensures value { result ≡ of_arguments (error_kind error.now) }
    ensures cause { IsUnread result }
{
    match error.kind() {
        ErrorKind::OutOfMemory => Status::NoMemory,
        _ => Status::Usage(UsageFault::Words),
    }
}

/// The words after the program's name, of the arguments that the machine gave. Where it gave none, as where one isn't UTF-8,
/// they are wrong words.
fn words_given(alloc: Global, given: io::Result<Args>) -> Result<Vec<Word>, Status>
    ensures words { MatchResult given
        (λ args. MatchResult result
        (λ words. words.items ≡ map string_bytes (drop 1 (into_iter_items args)))
        (λ status. status ≡ Status.NoMemory))
        (λ error. result ≡ Err (of_arguments (error_kind error))) }
    ensures unread { IfErr result IsUnread }
{
    match given {
        Ok(args) => Ok(words_of(alloc, args)?),
        Err(error) => Err(unread_arguments(&error)),
    }
}

/// The words after the program's name, as the machine gives its arguments.
pub fn given_words<R: Env + AllocGlobal>(rt: &R) -> Result<Vec<Word>, Status>
    ensures { IfErr result IsUnread }
{
    words_given(rt.alloc(), env::args(rt))
}

/// Says on standard error how the program ended, where that is told, and gives the exit code. What
/// standard error doesn't take is lost.
pub fn end<R: Eprint>(rt: &R, status: &Status) -> ExitCode
    ensures { exit_status result ≡ number_of status.now }
{
    if status.is_told() {
        let _ = eprintln!(rt; "{status}");
    }
    ExitCode::from(status.number())
}
