//! What is wrong with words that are no command, for whoever wrote them.

ghost use Rattle.std.specs.Prelude.{◌≡◌, ◌∷◌, List, Ok, Err, Some, IfOk, IsTrue, OnErr, slice_get, Result as TheResult};
ghost use Rattle.clap.specs.Words.{App, Text};
ghost use Rattle.command_words.specs.Complaints.{Complains};
ghost use Rattle.command_words.specs.declared.reading.Command.{Command};
ghost use Rattle.command_words.specs.declared.reading.Command.TheVariants as C;
ghost use Rattle.command_words.specs.declared.reading.Topic.{Topic};
ghost use Rattle.command_words.specs.declared.reading.Topic.TheVariants as T;
ghost use Rattle.command_words.specs.declared.reading.UsageFault.{UsageFault};
ghost use Rattle.command_words.specs.declared.reading.UsageFault.TheVariants as U;
ghost use Rattle.command_words.specs.Parsers.{cells, check, grow, kinds_of, mirror, play};
ghost use Rattle.command_words.specs.Words.{alone, answer_of, asks_clap, box_in, box_said, command_of, count_of};
ghost use Rattle.command_words.specs.inside.Parsing.{IsRefused, box_seen};

use crate::parsers::{
    CellsGiven, Refusal, read_cells, read_check, read_grow, read_mirror, read_play,
};
use crate::reading::{Name, is_one, name_of};
use crate::words::Word;
use std::alloc::{AllocError, Global};
use std::convert::AsStr;
use std::fmt;

/// What is wrong with words that are no command. Its text names the word, where there is one, and says where help is.
#[derive(Debug, Drop)]
pub enum Complaint<'a> {
    /// There is no word.
    NoCommand,
    /// This word, the first one, names no command.
    Unknown(&'a str),
    /// This word stands behind one that asks for help or the version, where none may.
    Behind(&'a str),
    /// This word of a box of cells holds a space or a line feed.
    NotOneWord(&'a str),
    /// Clap refuses the words behind the command; this is what it says.
    Refused(String),
}

impl fmt::Display for Complaint<'_> {
    ghost use Rattle.command_words.specs.Complaints.{complaint_text};

    ghost output = { complaint_text };

    fn fmt<W: fmt::Write>(&self, f: &mut fmt::Formatter<W>) -> fmt::Result {
        match self {
            Complaint::NoCommand => write!(f, "error: a command is missing{HELP}"),
            Complaint::Unknown(word) => write!(f, "error: unknown command {word:?}{HELP}"),
            Complaint::Behind(word) => write!(f, "error: unexpected word {word:?}{HELP}"),
            Complaint::NotOneWord(word) => {
                write!(f, "error: {word:?} holds a space or a line feed{HELP}")
            }
            Complaint::Refused(says) => f.write_str(says.as_str()),
        }
    }
}

/// Where help is.
const HELP: &str = "\n\nFor more information, try 'icerepo --help'.\n";

/// What clap's refusal of a command's words comes to.
fn complaint_for<'a>(alloc: Global, refusal: Refusal) -> Result<Option<Complaint<'a>>, AllocError>
    ensures { (a : App) (words : List Text) (said : TheResult Command UsageFault) (topic : Topic)
        → IsRefused a words refusal
        → IfOk result (Complains words (answer_of (kinds_of a words) said topic)) }
{
    match refusal {
        Refusal::Help => Ok(None),
        Refusal::Words(error) => {
            let says = format!(in alloc; "{error}")?;
            Ok(Some(Complaint::Refused(says)))
        }
        Refusal::NoMemory => Err(AllocError),
    }
}

fn play_complaint<'a>(alloc: Global, words: &'a [Word]) -> Result<Option<Complaint<'a>>, AllocError>
    ensures { IfOk result
        (Complains words.entry.now (answer_of (kinds_of play words.entry.now) (Ok C.Play) T.Play)) }
{
    match read_play(alloc, words) {
        Ok(_) => Ok(None),
        Err(refusal) => complaint_for(alloc, refusal),
    }
}

impl<'a> CellsGiven<'a> {
    /// What is wrong with the four words, the first that is.
    fn complaint(self) -> Option<Complaint<'a>>
        ensures { (words : List Text) → box_seen self.entry ≡ box_in words
            → Complains words (box_said (box_seen self.entry)) result }
    {
        if !is_one(self.branch) {
            Some(Complaint::NotOneWord(self.branch))
        } else if !is_one(self.path) {
            Some(Complaint::NotOneWord(self.path))
        } else if !is_one(self.from) {
            Some(Complaint::NotOneWord(self.from))
        } else if !is_one(self.to) {
            Some(Complaint::NotOneWord(self.to))
        } else {
            None
        }
    }
}

fn cells_complaint<'a>(
    alloc: Global,
    words: &'a [Word],
) -> Result<Option<Complaint<'a>>, AllocError>
    ensures { IfOk result
        (Complains words.entry.now
        (answer_of (kinds_of cells words.entry.now) (box_said (box_in words.entry.now)) T.Cells)) }
{
    match read_cells(alloc, words) {
        Ok(given) => Ok(given.complaint()),
        Err(refusal) => complaint_for(alloc, refusal),
    }
}

fn grow_complaint<'a>(alloc: Global, words: &'a [Word]) -> Result<Option<Complaint<'a>>, AllocError>
    ensures { IfOk result
        (Complains words.entry.now
        (answer_of (kinds_of grow words.entry.now) (Ok (C.Grow (count_of words.entry.now)))
        T.Grow)) }
{
    match read_grow(alloc, words) {
        Ok(_) => Ok(None),
        Err(refusal) => complaint_for(alloc, refusal),
    }
}

fn check_complaint<'a>(
    alloc: Global,
    words: &'a [Word],
) -> Result<Option<Complaint<'a>>, AllocError>
    ensures { IfOk result
        (Complains words.entry.now (answer_of (kinds_of check words.entry.now) (Ok C.Check)
        T.Check)) }
{
    match read_check(alloc, words) {
        Ok(_) => Ok(None),
        Err(refusal) => complaint_for(alloc, refusal),
    }
}

/// A mirror is none of the commands over one store.
fn mirror_complaint<'a>(
    alloc: Global,
    first: &'a Word,
    words: &'a [Word],
) -> Result<Option<Complaint<'a>>, AllocError>
    requires { slice_get words.now 0 ≡ Some first.now }
    ensures { IfOk result
        (Complains words.entry.now (answer_of (kinds_of mirror words.entry.now) (Err U.Unknown)
        T.Mirror)) }
{
    match read_mirror(alloc, words) {
        Ok(_) => Ok(Some(Complaint::Unknown(first.as_str()))),
        Err(refusal) => complaint_for(alloc, refusal),
    }
}

/// What is wrong where words stand behind one that asks for help or the version.
fn word_behind<'a>(others: &'a [Word]) -> Option<Complaint<'a>>
    ensures { (first : Text) (command : Command)
        → Complains (first ∷ others.entry.now) (alone others.entry.now command) result }
{
    match others.first() {
        Some(word) => Some(Complaint::Behind(word.as_str())),
        None => None,
    }
}

/// What is wrong with the words after the program's name; `None` exactly where they say a command.
/// Memory is taken only where clap reads the words.
pub fn complaint_of<'a>(
    alloc: Global,
    words: &'a [Word],
) -> Result<Option<Complaint<'a>>, AllocError>
    ensures complains { IfOk result (Complains words.entry.now (command_of words.entry.now)) }
    ensures memory { OnErr result (IsTrue (asks_clap words.entry.now)) }
{
    let [first, others @ ..] = words else {
        return Ok(Some(Complaint::NoCommand));
    };
    match name_of(first.as_str()) {
        Some(Name::Play) => play_complaint(alloc, words),
        Some(Name::Cells) => cells_complaint(alloc, words),
        Some(Name::Grow) => grow_complaint(alloc, words),
        Some(Name::Check) => check_complaint(alloc, words),
        Some(Name::Mirror) => mirror_complaint(alloc, first, words),
        Some(Name::Help) => Ok(word_behind(others)),
        Some(Name::Version) => Ok(word_behind(others)),
        None => Ok(Some(Complaint::Unknown(first.as_str()))),
    }
}
