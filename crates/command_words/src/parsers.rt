//! The words of each command, as clap reads them. Of all words the first one is the command's name.

ghost use Rattle.std.specs.Prelude.{◌≡◌, [], IfOk, MatchResult, option_map, unwrap_or};
ghost use Rattle.clap.specs.Words.{app_of, kind_of, found_of, first_value, with_rule};
ghost use Rattle.command_words.specs.Parsers.{cells, check, grow, mirror, play, dir_rule, progress_rule, word_rule};
ghost use Rattle.command_words.specs.inside.Parsing.{IsGrow, IsTaken, IsGrown, IsBox, IsPair, IsRefusalFor, IsRefused};

use crate::words::Word;
use clap::error::ErrorKind;
use clap::{Arg, ArgAction, ArgMatches, Command, Error};
use std::alloc::{AllocError, Global};

/// Why clap gives nothing.
#[derive(Debug, Drop)]
pub(crate) enum Refusal {
    /// The words ask for help.
    Help,
    /// The words are none that the command takes, and clap says why.
    Words(Error),
    /// There was no memory.
    NoMemory,
}

/// What the words of `grow` give.
#[derive(Clone, Copy, Debug, PartialEq, Eq)]
pub(crate) struct GrowWords<'a> {
    /// The number.
    pub(crate) count: u8,
    /// The path of the directory.
    pub(crate) dir: Option<&'a str>,
}

/// What the words of `cells` give.
#[derive(Clone, Copy, Debug, PartialEq, Eq)]
pub(crate) struct CellsGiven<'a> {
    /// The name of the branch.
    pub(crate) branch: &'a str,
    /// The path of the array.
    pub(crate) path: &'a str,
    /// Where the box begins.
    pub(crate) from: &'a str,
    /// Where it ends.
    pub(crate) to: &'a str,
    /// The path of the directory.
    pub(crate) dir: Option<&'a str>,
}

/// What the words of `mirror` give.
#[derive(Clone, Copy, Debug, PartialEq, Eq)]
pub(crate) struct MirrorWords<'a> {
    /// The path of the directory that is copied.
    pub(crate) from: &'a str,
    /// The path of the directory that it is copied into.
    pub(crate) to: &'a str,
}

fn play_command<'a>(alloc: Global) -> Result<Command<'a>, AllocError>
    ensures { IfOk result (λ c. app_of c ≡ play) }
{
    let dir = Arg::new(alloc, "dir").long("dir").action(ArgAction::Set);
    Command::new(alloc, "play").arg(dir)
}

/// The command with a word that must be there.
fn with_word<'a>(
    alloc: Global,
    command: Command<'a>,
    id: &'a str,
) -> Result<Command<'a>, AllocError>
    ensures { IfOk result (λ c. app_of c ≡ with_rule (app_of command.entry)
        (word_rule id.entry.now)) }
{
    let word = Arg::new(alloc, id).required(true).action(ArgAction::Set);
    command.arg(word)
}

/// The command with `--dir PATH`.
fn with_dir<'a>(alloc: Global, command: Command<'a>) -> Result<Command<'a>, AllocError>
    ensures { IfOk result (λ c. app_of c ≡ with_rule (app_of command.entry) dir_rule) }
{
    let dir = Arg::new(alloc, "dir").long("dir").action(ArgAction::Set);
    command.arg(dir)
}

#[tactic(auto, unfolding(crate::specs::Parsers::cells))]
fn cells_command<'a>(alloc: Global) -> Result<Command<'a>, AllocError>
    ensures { IfOk result (λ c. app_of c ≡ cells) }
{
    let command = Command::new(alloc, "cells");
    let command = with_word(alloc, command, "branch")?;
    let command = with_word(alloc, command, "path")?;
    let command = with_word(alloc, command, "from")?;
    let command = with_word(alloc, command, "to")?;
    with_dir(alloc, command)
}

/// The command with `--progress`.
fn with_progress<'a>(alloc: Global, command: Command<'a>) -> Result<Command<'a>, AllocError>
    ensures { IfOk result (λ c. app_of c ≡ with_rule (app_of command.entry) progress_rule) }
{
    let progress = Arg::new(alloc, "progress")
        .long("progress")
        .action(ArgAction::SetTrue);
    command.arg(progress)
}

#[tactic(auto, unfolding(crate::specs::Parsers::check))]
fn check_command<'a>(alloc: Global) -> Result<Command<'a>, AllocError>
    ensures { IfOk result (λ c. app_of c ≡ check) }
{
    let command = with_dir(alloc, Command::new(alloc, "check"))?;
    with_progress(alloc, command)
}

#[tactic(auto, unfolding(crate::specs::Parsers::mirror))]
fn mirror_command<'a>(alloc: Global) -> Result<Command<'a>, AllocError>
    ensures { IfOk result (λ c. app_of c ≡ mirror) }
{
    let command = with_word(alloc, Command::new(alloc, "mirror"), "from")?;
    with_word(alloc, command, "to")
}

fn grow_command<'a>(alloc: Global) -> Result<Command<'a>, AllocError>
    ensures { IfOk result IsGrow }
{
    let count = Arg::new(alloc, "n")
        .required(true)
        .action(ArgAction::Set)
        .value_parser(clap::value_parser!(u8).range(1..61));
    let dir = Arg::new(alloc, "dir").long("dir").action(ArgAction::Set);
    Command::new(alloc, "grow").arg(count)?.arg(dir)
}

fn refusal_of(error: Error) -> Refusal
    ensures { IsRefusalFor (kind_of error) result }
{
    let kind = error.kind();
    if kind == ErrorKind::OutOfMemory {
        Refusal::NoMemory
    } else if kind == ErrorKind::DisplayHelp {
        Refusal::Help
    } else {
        Refusal::Words(error)
    }
}

fn play_given<'a>(command: Command<'a>, words: &'a [Word]) -> Result<Option<&'a str>, Refusal>
    requires { app_of command ≡ play }
    ensures { MatchResult result (λ dir. IsTaken play words.entry.now (option_map (λ s. s.now) dir))
        (IsRefused play words.entry.now) }
{
    match command.try_get_matches_from(words) {
        Ok(matches) => Ok(matches.get_str("dir")),
        Err(error) => Err(refusal_of(error)),
    }
}

fn check_given<'a>(command: Command<'a>, words: &'a [Word]) -> Result<Option<&'a str>, Refusal>
    requires { app_of command ≡ check }
    ensures { MatchResult result
        (λ dir. IsTaken check words.entry.now (option_map (λ s. s.now) dir))
        (IsRefused check words.entry.now) }
{
    match command.try_get_matches_from(words) {
        Ok(matches) => Ok(matches.get_str("dir")),
        Err(error) => Err(refusal_of(error)),
    }
}

/// The text that a word gives that must be there.
fn text_given<'a>(matches: &ArgMatches<'a>, id: &str) -> &'a str
    ensures { result.now ≡ unwrap_or (first_value (found_of matches.now) id.now) [] }
{
    match matches.get_str(id) {
        Some(word) => word,
        None => "",
    }
}

fn cells_given<'a>(command: Command<'a>, words: &'a [Word]) -> Result<CellsGiven<'a>, Refusal>
    requires { app_of command ≡ cells }
    ensures { MatchResult result (IsBox words.entry.now) (IsRefused cells words.entry.now) }
{
    match command.try_get_matches_from(words) {
        Ok(matches) => {
            let branch = text_given(&matches, "branch");
            let path = text_given(&matches, "path");
            let from = text_given(&matches, "from");
            let to = text_given(&matches, "to");
            let dir = matches.get_str("dir");
            Ok(CellsGiven {
                branch,
                path,
                from,
                to,
                dir,
            })
        }
        Err(error) => Err(refusal_of(error)),
    }
}

fn mirror_given<'a>(command: Command<'a>, words: &'a [Word]) -> Result<MirrorWords<'a>, Refusal>
    requires { app_of command ≡ mirror }
    ensures { MatchResult result (IsPair words.entry.now) (IsRefused mirror words.entry.now) }
{
    match command.try_get_matches_from(words) {
        Ok(matches) => {
            let from = text_given(&matches, "from");
            let to = text_given(&matches, "to");
            Ok(MirrorWords { from, to })
        }
        Err(error) => Err(refusal_of(error)),
    }
}

fn grow_given<'a>(command: Command<'a>, words: &'a [Word]) -> Result<GrowWords<'a>, Refusal>
    requires { IsGrow command }
    ensures { MatchResult result
        (λ g. IsGrown words.entry.now g.count (option_map (λ s. s.now) g.dir))
        (IsRefused grow words.entry.now) }
{
    match command.try_get_matches_from(words) {
        Ok(matches) => {
            let count = matches.get_one::<u8>("n").unwrap();
            let dir = matches.get_str("dir");
            Ok(GrowWords { count, dir })
        }
        Err(error) => Err(refusal_of(error)),
    }
}

/// The path that the words of `play` give.
pub(crate) fn read_play<'a>(alloc: Global, words: &'a [Word]) -> Result<Option<&'a str>, Refusal>
    ensures { MatchResult result (λ dir. IsTaken play words.entry.now (option_map (λ s. s.now) dir))
        (IsRefused play words.entry.now) }
{
    match play_command(alloc) {
        Ok(command) => play_given(command, words),
        Err(_) => Err(Refusal::NoMemory),
    }
}

/// The path that the words of `check` give.
pub(crate) fn read_check<'a>(alloc: Global, words: &'a [Word]) -> Result<Option<&'a str>, Refusal>
    ensures { MatchResult result
        (λ dir. IsTaken check words.entry.now (option_map (λ s. s.now) dir))
        (IsRefused check words.entry.now) }
{
    match check_command(alloc) {
        Ok(command) => check_given(command, words),
        Err(_) => Err(Refusal::NoMemory),
    }
}

/// The four words and the path that the words of `cells` give.
pub(crate) fn read_cells<'a>(alloc: Global, words: &'a [Word]) -> Result<CellsGiven<'a>, Refusal>
    ensures { MatchResult result (IsBox words.entry.now) (IsRefused cells words.entry.now) }
{
    match cells_command(alloc) {
        Ok(command) => cells_given(command, words),
        Err(_) => Err(Refusal::NoMemory),
    }
}

/// The number and the path that the words of `grow` give.
pub(crate) fn read_grow<'a>(alloc: Global, words: &'a [Word]) -> Result<GrowWords<'a>, Refusal>
    ensures { MatchResult result
        (λ g. IsGrown words.entry.now g.count (option_map (λ s. s.now) g.dir))
        (IsRefused grow words.entry.now) }
{
    match grow_command(alloc) {
        Ok(command) => grow_given(command, words),
        Err(_) => Err(Refusal::NoMemory),
    }
}

/// The two paths that the words of `mirror` give.
pub(crate) fn read_mirror<'a>(alloc: Global, words: &'a [Word]) -> Result<MirrorWords<'a>, Refusal>
    ensures { MatchResult result (IsPair words.entry.now) (IsRefused mirror words.entry.now) }
{
    match mirror_command(alloc) {
        Ok(command) => mirror_given(command, words),
        Err(_) => Err(Refusal::NoMemory),
    }
}
