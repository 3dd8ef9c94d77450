//! What the words say.

ghost use Rattle.std.specs.Prelude.{◌≡◌, ◌≢◌, List, Ok, Err, Option, None, Result as TheResult, IfOk, IsTrue, OnErr, option_map};
ghost use Rattle.command_words.specs.Parsers.{cells, check, grow, kinds_of, mirror, play};
ghost use Rattle.clap.specs.Words.{App, Text};
ghost use Rattle.command_words.specs.Words.{IsInRange, has_progress, shows_progress, IsSaid, alone, answer_of, are_ones, asks_clap, asks_help, asks_version, box_dir, box_in, box_said, command_of, dir_beside, count_of, dir_of, is_one, name_of, pair_in, pair_of, pair_where, path_of, paths_of};
ghost use Rattle.command_words.specs.inside.Parsing.{IsRefused, IsDir, IsDirOf, box_seen};

use crate::parsers::{
    CellsGiven, Refusal, read_cells, read_check, read_grow, read_mirror, read_play,
};
use crate::words::Word;
use std::alloc::{AllocError, Global};
use std::convert::AsStr;

/// The words that tell a box of cells of an array.
#[derive(Debug, PartialEq, Eq, Drop)]
pub struct BoxWords {
    /// The branch at which the array is read.
    pub branch: Word,
    /// The array's path.
    pub path: Word,
    /// Where the box begins.
    pub from: Word,
    /// Where it ends; that isn't in it.
    pub to: Word,
}

/// What the program is told to do.
#[derive(Debug, PartialEq, Eq, Drop)]
pub enum Command {
    /// Runs the script that comes on standard input, and prints its report.
    Play,
    /// Makes a script that shows the numbers of a box of cells, runs it, and prints its report.
    Cells(BoxWords),
    /// Makes a script of so many tasks beside the first one, from 1 to 60, runs it, and prints one line.
    Grow(u8),
    /// Checks all that the refs of the repository reach, and prints what is wrong.
    Check,
    /// Prints help.
    Help(Topic),
    /// Prints the version.
    Version,
}

/// What help is asked for.
#[derive(Clone, Copy, Debug, PartialEq, Eq)]
pub enum Topic {
    /// The whole program.
    Program,
    /// The command `play`.
    Play,
    /// The command `cells`.
    Cells,
    /// The command `grow`.
    Grow,
    /// The command `check`.
    Check,
    /// The command `mirror`.
    Mirror,
}

/// How the words are wrong.
#[derive(Clone, Copy, Debug, PartialEq, Eq)]
pub enum UsageFault {
    /// There is no word.
    NoCommand,
    /// The first word names no command.
    Unknown,
    /// The words behind the command are none that it takes.
    Words,
}

/// Why the words say nothing.
#[derive(Clone, Copy, Debug, PartialEq, Eq)]
pub enum WordsFault {
    /// They are wrong.
    Usage(UsageFault),
    /// There was no memory to read them.
    NoMemory,
}

/// Where the repository lies.
#[derive(Clone, Copy, Debug, PartialEq, Eq)]
pub enum Location<'a> {
    /// In memory, for this run alone.
    Memory,
    /// In the directory at this path.
    Dir(&'a str),
    /// In the directory at the first path, from which it is copied into the one at the second.
    Pair(&'a str, &'a str),
}

/// What the first word names.
#[derive(Clone, Copy, Debug, PartialEq, Eq)]
pub(crate) enum Name {
    Play,
    Cells,
    Grow,
    Check,
    Mirror,
    Help,
    Version,
}

/// Whether a word asks for help.
fn asks_help(word: &str) -> bool
    ensures { result ≡ asks_help word.now }
{
    word == "--help" || word == "-h"
}

/// Whether a word asks for the version.
fn asks_version(word: &str) -> bool
    ensures { result ≡ asks_version word.now }
{
    word == "--version" || word == "-V"
}

pub(crate) fn name_of(word: &str) -> Option<Name>
    ensures { result ≡ name_of word.now }
{
    if word == "play" {
        Some(Name::Play)
    } else if word == "cells" {
        Some(Name::Cells)
    } else if word == "grow" {
        Some(Name::Grow)
    } else if word == "check" {
        Some(Name::Check)
    } else if word == "mirror" {
        Some(Name::Mirror)
    } else if asks_help(word) {
        Some(Name::Help)
    } else if asks_version(word) {
        Some(Name::Version)
    } else {
        None
    }
}

/// What clap's refusal of a command's words comes to.
fn refused(refusal: Refusal, topic: Topic) -> Result<Command, WordsFault>
    ensures says { (a : App) (words : List Text) (said : TheResult Command UsageFault)
        → IsRefused a words refusal → IsSaid (answer_of (kinds_of a words) said topic) result }
    ensures range { IfOk result IsInRange }
{
    match refusal {
        Refusal::Help => Ok(Command::Help(topic)),
        Refusal::Words(_) => Err(WordsFault::Usage(UsageFault::Words)),
        Refusal::NoMemory => Err(WordsFault::NoMemory),
    }
}

fn play_said(alloc: Global, words: &[Word]) -> Result<Command, WordsFault>
    ensures { IsSaid (answer_of (kinds_of play words.now) (Ok Command.Play) Topic.Play) result }
{
    match read_play(alloc, words) {
        Ok(_) => Ok(Command::Play),
        Err(refusal) => refused(refusal, Topic::Play),
    }
}

/// Whether a word is one word of a script.
pub(crate) fn is_one(word: &str) -> bool
    ensures { result ≡ is_one word.now }
{
    word.bytes().all(|b| b != b' ' && b != b'\n')
}

impl<'a> CellsGiven<'a> {
    /// Whether the four words are words of a script.
    fn are_ones(self) -> bool
        ensures { result ≡ are_ones (box_seen self.entry) }
    {
        is_one(self.branch) && is_one(self.path) && is_one(self.from) && is_one(self.to)
    }

    /// The four words, in memory of their own.
    fn words(self, alloc: Global) -> Result<BoxWords, AllocError>
        ensures { IfOk result (λ words. words ≡ box_seen self.entry) }
    {
        Ok(BoxWords {
            branch: Word::of(alloc, self.branch)?,
            path: Word::of(alloc, self.path)?,
            from: Word::of(alloc, self.from)?,
            to: Word::of(alloc, self.to)?,
        })
    }

    /// What the words say.
    fn said(self, alloc: Global) -> Result<Command, WordsFault>
        ensures says { IsSaid (box_said (box_seen self.entry)) result }
        ensures range { IfOk result IsInRange }
    {
        if !self.are_ones() {
            return Err(WordsFault::Usage(UsageFault::Words));
        }
        match self.words(alloc) {
            Ok(words) => Ok(Command::Cells(words)),
            Err(_) => Err(WordsFault::NoMemory),
        }
    }

    /// The path of the directory, where the four words are words of a script.
    fn dir(self) -> Option<&'a str>
        ensures { option_map (λ s. s.now) result ≡ dir_beside (box_seen self.entry)
            (option_map (λ s. s.now) self.entry.dir) }
    {
        if self.are_ones() { self.dir } else { None }
    }
}

fn cells_said(alloc: Global, words: &[Word]) -> Result<Command, WordsFault>
    ensures says { IsSaid (answer_of (kinds_of cells words.now) (box_said (box_in words.now))
        Topic.Cells) result }
    ensures range { IfOk result IsInRange }
{
    match read_cells(alloc, words) {
        Ok(given) => given.said(alloc),
        Err(refusal) => refused(refusal, Topic::Cells),
    }
}

fn grow_said(alloc: Global, words: &[Word]) -> Result<Command, WordsFault>
    ensures says { IsSaid
        (answer_of (kinds_of grow words.now) (Ok (Command.Grow (count_of words.now))) Topic.Grow)
        result }
    ensures range { IfOk result IsInRange }
{
    match read_grow(alloc, words) {
        Ok(given) => Ok(Command::Grow(given.count)),
        Err(refusal) => refused(refusal, Topic::Grow),
    }
}

fn check_said(alloc: Global, words: &[Word]) -> Result<Command, WordsFault>
    ensures { IsSaid (answer_of (kinds_of check words.now) (Ok Command.Check) Topic.Check) result }
{
    match read_check(alloc, words) {
        Ok(_) => Ok(Command::Check),
        Err(refusal) => refused(refusal, Topic::Check),
    }
}

/// A mirror is none of the commands over one store; help on it is said.
fn mirror_said(alloc: Global, words: &[Word]) -> Result<Command, WordsFault>
    ensures says { IsSaid (answer_of (kinds_of mirror words.now) (Err UsageFault.Unknown)
        Topic.Mirror) result }
    ensures range { IfOk result IsInRange }
{
    match read_mirror(alloc, words) {
        Ok(_) => Err(WordsFault::Usage(UsageFault::Unknown)),
        Err(refusal) => refused(refusal, Topic::Mirror),
    }
}

/// A command behind which no word stands.
fn alone(others: &[Word], command: Command) -> Result<Command, WordsFault>
    ensures says { IsSaid (alone others.now command) result }
    ensures memory { result ≢ Err WordsFault.NoMemory }
{
    if others.is_empty() {
        Ok(command)
    } else {
        Err(WordsFault::Usage(UsageFault::Words))
    }
}

/// The command that the words after the program's name say. The first one names it, and clap reads
/// the words of `play`, `cells`, `grow`, `check` and `mirror`.
///
/// The fault is `NoCommand` where there is no word, `Unknown` where the first one names no command,
/// and `Words` exactly where clap refuses the others for another cause than memory, where one of the
/// four words of `cells` holds a space or a line feed, or where a word stands behind `--help` or
/// `--version`. A command's own `--help` asks for help on it. `-h` and `-V` are short for those. `mirror
/// FROM TO` is `Unknown`, since it is done over two directories, which `location_of` tells. Memory is
/// taken only where clap reads the words.
pub fn read_words(alloc: Global, words: &[Word]) -> Result<Command, WordsFault>
    ensures says { IsSaid (command_of words.now) result }
    ensures range { IfOk result IsInRange }
    ensures memory { result ≡ Err WordsFault.NoMemory → IsTrue (asks_clap words.now) }
{
    let [first, others @ ..] = words else {
        return Err(WordsFault::Usage(UsageFault::NoCommand));
    };
    match name_of(first.as_str()) {
        Some(Name::Play) => play_said(alloc, words),
        Some(Name::Cells) => cells_said(alloc, words),
        Some(Name::Grow) => grow_said(alloc, words),
        Some(Name::Check) => check_said(alloc, words),
        Some(Name::Mirror) => mirror_said(alloc, words),
        Some(Name::Help) => alone(others, Command::Help(Topic::Program)),
        Some(Name::Version) => alone(others, Command::Version),
        None => Err(WordsFault::Usage(UsageFault::Unknown)),
    }
}

/// No directory is told where clap refuses the words.
fn no_dir<'a>(refusal: Refusal) -> Result<Option<&'a str>, AllocError>
    ensures { (a : App) (words : List Text) (dir : Option Text) → IsRefused a words refusal
        → IsDirOf a words dir result }
{
    match refusal {
        Refusal::NoMemory => Err(AllocError),
        Refusal::Help | Refusal::Words(_) => Ok(None),
    }
}

fn play_dir<'a>(alloc: Global, words: &'a [Word]) -> Result<Option<&'a str>, AllocError>
    ensures { IsDir play words.entry.now result }
{
    match read_play(alloc, words) {
        Ok(dir) => Ok(dir),
        Err(refusal) => no_dir(refusal),
    }
}

fn cells_dir<'a>(alloc: Global, words: &'a [Word]) -> Result<Option<&'a str>, AllocError>
    ensures { IsDirOf cells words.entry.now (box_dir words.entry.now) result }
{
    match read_cells(alloc, words) {
        Ok(given) => Ok(given.dir()),
        Err(refusal) => no_dir(refusal),
    }
}

fn grow_dir<'a>(alloc: Global, words: &'a [Word]) -> Result<Option<&'a str>, AllocError>
    ensures { IsDir grow words.entry.now result }
{
    match read_grow(alloc, words) {
        Ok(given) => Ok(given.dir),
        Err(refusal) => no_dir(refusal),
    }
}

fn check_dir<'a>(alloc: Global, words: &'a [Word]) -> Result<Option<&'a str>, AllocError>
    ensures { IsDir check words.entry.now result }
{
    match read_check(alloc, words) {
        Ok(dir) => Ok(dir),
        Err(refusal) => no_dir(refusal),
    }
}

/// The place at this path, or in memory where there is none.
fn in_dir<'a>(dir: Result<Option<&'a str>, AllocError>) -> Result<Location<'a>, AllocError>
    ensures path { (said : Option Text)
        → IfOk dir.entry (λ path. option_map (λ s. s.now) path ≡ said)
        → IfOk result (λ place. path_of place ≡ said) }
    ensures pair { IfOk result (λ place. paths_of place ≡ None) }
{
    match dir {
        Ok(Some(path)) => Ok(Location::Dir(path)),
        Ok(None) => Ok(Location::Memory),
        Err(error) => Err(error),
    }
}

/// No two directories are told where clap refuses the words.
fn no_pair<'a>(refusal: Refusal) -> Result<Location<'a>, AllocError>
    ensures dir { IfOk result (λ place. path_of place ≡ None) }
    ensures pair { (a : App) (words : List Text) (pair : Text × Text) → IsRefused a words refusal
        → IfOk result (λ place. paths_of place ≡ pair_where (kinds_of a words) pair) }
{
    match refusal {
        Refusal::NoMemory => Err(AllocError),
        Refusal::Help | Refusal::Words(_) => Ok(Location::Memory),
    }
}

/// The two directories of a mirror.
fn mirror_pair<'a>(alloc: Global, words: &'a [Word]) -> Result<Location<'a>, AllocError>
    ensures dir { IfOk result (λ place. path_of place ≡ None) }
    ensures pair { IfOk result
        (λ place. paths_of place ≡ pair_where (kinds_of mirror words.entry.now)
        (pair_in words.entry.now)) }
{
    match read_mirror(alloc, words) {
        Ok(pair) => Ok(Location::Pair(pair.from, pair.to)),
        Err(refusal) => no_pair(refusal),
    }
}

/// Where the words say that the repository lies: in a directory exactly where the first word names a
/// command, clap takes the others, the four words of `cells` hold neither a space nor a line feed, and
/// `--dir` is among them; in two directories exactly where the first word is `mirror` and clap takes
/// the others; else in memory. Memory is taken only where clap reads the words.
pub fn location_of<'a>(alloc: Global, words: &'a [Word]) -> Result<Location<'a>, AllocError>
    ensures dir { IfOk result (λ place. path_of place ≡ dir_of words.entry.now) }
    ensures pair { IfOk result (λ place. paths_of place ≡ pair_of words.entry.now) }
    ensures memory { OnErr result (IsTrue (asks_clap words.entry.now)) }
{
    let [first, ..] = words else {
        return Ok(Location::Memory);
    };
    match name_of(first.as_str()) {
        Some(Name::Play) => in_dir(play_dir(alloc, words)),
        Some(Name::Cells) => in_dir(cells_dir(alloc, words)),
        Some(Name::Grow) => in_dir(grow_dir(alloc, words)),
        Some(Name::Check) => in_dir(check_dir(alloc, words)),
        Some(Name::Mirror) => mirror_pair(alloc, words),
        _ => Ok(Location::Memory),
    }
}

/// Whether one of the words is `--progress`.
fn has_progress(words: &[Word]) -> bool
    ensures { result ≡ has_progress words.now }
{
    words.iter().any(|word| word.as_str() == "--progress")
}

/// Whether the words ask that a check tells how far it is: the first one is `check`, and `--progress` stands behind it. Where they
/// are no command, nothing is checked.
pub fn shows_progress(words: &[Word]) -> bool
    ensures { result ≡ shows_progress words.now }
{
    match words {
        [first, others @ ..] => first.as_str() == "check" && has_progress(others),
        [] => false,
    }
}
