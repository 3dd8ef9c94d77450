use command_words::{
    BoxWords, Command, Location, Topic, UsageFault, Word, WordsFault, complaint_of, location_of,
    read_words,
};
use std::alloc::{AllocError, Global};
use std::test::Fail;
use test_ends::{holds, says as wants};

fn word(alloc: Global, text: &str) -> Result<Word, AllocError> {
    Ok(Word::new(String::from_str(alloc, text)?))
}

/// The words of a line, separated by spaces.
fn words(alloc: Global, line: &str) -> Result<Vec<Word>, AllocError> {
    let mut list = Vec::new(alloc);
    for text in line.split_whitespace() {
        list.push(word(alloc, text)?)?;
    }
    Ok(list)
}

/// Whether the words of a line say this.
fn says(alloc: Global, line: &str, said: &Result<Command, WordsFault>) -> bool {
    let Ok(list) = words(alloc, line) else {
        return false;
    };
    let says = read_words(alloc, list.as_slice()) == *said;
    drop(list);
    says
}

/// Whether the words of a line name this place.
fn is_at(alloc: Global, line: &str, place: Location<'_>) -> bool {
    let Ok(list) = words(alloc, line) else {
        return false;
    };
    let is = location_of(alloc, list.as_slice()) == Ok(place);
    drop(list);
    is
}

const WRONG: Result<Command, WordsFault> = Err(WordsFault::Usage(UsageFault::Words));

const UNKNOWN: Result<Command, WordsFault> = Err(WordsFault::Usage(UsageFault::Unknown));

const LINES: [(&str, Result<Command, WordsFault>); 42] = [
    ("", Err(WordsFault::Usage(UsageFault::NoCommand))),
    ("run", UNKNOWN),
    ("-x", UNKNOWN),
    ("-H", UNKNOWN),
    ("play", Ok(Command::Play)),
    ("play --dir d", Ok(Command::Play)),
    ("play --dir=", Ok(Command::Play)),
    ("play --", Ok(Command::Play)),
    ("play --help", Ok(Command::Help(Topic::Play))),
    ("play --dir d -h", Ok(Command::Help(Topic::Play))),
    ("play x", WRONG),
    ("play --dir", WRONG),
    ("play --dir a --dir b", WRONG),
    ("cells --help", Ok(Command::Help(Topic::Cells))),
    ("cells", WRONG),
    ("cells main /x 0", WRONG),
    ("cells main /x 0 1 2", WRONG),
    ("cells main /x -1 1", WRONG),
    ("grow 1", Ok(Command::Grow(1))),
    ("grow +5", Ok(Command::Grow(5))),
    ("grow --dir=d 060", Ok(Command::Grow(60))),
    ("grow --help", Ok(Command::Help(Topic::Grow))),
    ("grow", WRONG),
    ("grow 0", WRONG),
    ("grow 61", WRONG),
    ("grow 5 6", WRONG),
    ("check", Ok(Command::Check)),
    ("check --progress --dir d", Ok(Command::Check)),
    ("check --help", Ok(Command::Help(Topic::Check))),
    ("check x", WRONG),
    ("mirror a b", UNKNOWN),
    ("mirror a", WRONG),
    ("mirror a b c", WRONG),
    ("mirror a b --dir c", WRONG),
    ("mirror --help", Ok(Command::Help(Topic::Mirror))),
    ("--help", Ok(Command::Help(Topic::Program))),
    ("-h", Ok(Command::Help(Topic::Program))),
    ("--help play", WRONG),
    ("-h play", WRONG),
    ("--version", Ok(Command::Version)),
    ("-V", Ok(Command::Version)),
    ("-V -h", WRONG),
];

#[test]
fn words_are_read(rt: HostRuntime) -> Result<(), Fail> {
    for (line, said) in &LINES {
        holds(says(rt.alloc(), line, said), line)?;
    }
    Ok(())
}

const BOXES: [(&str, [&str; 4]); 3] = [
    ("cells main /x 0,1 3,5", ["main", "/x", "0,1", "3,5"]),
    ("cells main --dir d /s - -", ["main", "/s", "-", "-"]),
    ("cells --dir=d a b c d --", ["a", "b", "c", "d"]),
];

/// The command of four words.
fn box_command(alloc: Global, [branch, path, from, to]: [&str; 4]) -> Result<Command, AllocError> {
    Ok(Command::Cells(BoxWords {
        branch: word(alloc, branch)?,
        path: word(alloc, path)?,
        from: word(alloc, from)?,
        to: word(alloc, to)?,
    }))
}

/// Whether the words of a line say a box of cells by these four words.
fn says_box(alloc: Global, line: &str, four: [&str; 4]) -> bool {
    let Ok(command) = box_command(alloc, four) else {
        return false;
    };
    let said = Ok(command);
    let says = says(alloc, line, &said);
    drop(said);
    says
}

#[test]
fn boxes_are_told(rt: HostRuntime) -> Result<(), Fail> {
    for (line, four) in &BOXES {
        holds(says_box(rt.alloc(), line, *four), line)?;
    }
    Ok(())
}

const PLACES: [(&str, Location<'static>); 15] = [
    ("", Location::Memory),
    ("play", Location::Memory),
    ("play --dir d", Location::Dir("d")),
    ("play --dir=", Location::Dir("")),
    ("play --dir d x", Location::Memory),
    ("cells main /x 0 1", Location::Memory),
    ("cells main /x 0 1 --dir d", Location::Dir("d")),
    ("cells main /x 0 --dir d", Location::Memory),
    ("grow 5 --dir d", Location::Dir("d")),
    ("grow 0 --dir d", Location::Memory),
    ("mirror a b", Location::Pair("a", "b")),
    ("mirror -- a -b", Location::Pair("a", "-b")),
    ("mirror a", Location::Memory),
    ("mirror a b --help", Location::Memory),
    ("--version --dir d", Location::Memory),
];

#[test]
fn places_are_told(rt: HostRuntime) -> Result<(), Fail> {
    for (line, place) in &PLACES {
        holds(is_at(rt.alloc(), line, *place), line)?;
    }
    Ok(())
}

/// Words with what is wrong with them. Of those behind a command clap says it.
const COMPLAINTS: [(&[&str], &str); 10] = [
    (
        &[],
        "error: a command is missing\n\nFor more information, try 'icerepo --help'.\n",
    ),
    (
        &["plya"],
        "error: unknown command \"plya\"\n\nFor more information, try 'icerepo --help'.\n",
    ),
    (
        &["a\nb"],
        "error: unknown command \"a\\nb\"\n\nFor more information, try 'icerepo --help'.\n",
    ),
    (
        &["-V", "-h"],
        "error: unexpected word \"-h\"\n\nFor more information, try 'icerepo --help'.\n",
    ),
    (
        &["cells", "main", "/a b", "0", "1\n"],
        "error: \"/a b\" holds a space or a line feed\n\nFor more information, try 'icerepo --help'.\n",
    ),
    (
        &["play", "x"],
        "error: unexpected argument 'x' found\n\nUsage: play [OPTIONS]\n\nFor more information, try '--help'.\n",
    ),
    (
        &["play", "--dir"],
        "error: a value is required for '--dir <dir>' but none was supplied\n\nFor more information, try '--help'.\n",
    ),
    (
        &["check", "--progess"],
        "error: unexpected argument '--progess' found\n\n  tip: a similar argument exists: '--progress'\n\nUsage: check --progress\n\nFor more information, try '--help'.\n",
    ),
    (
        &["grow"],
        "error: the following required arguments were not provided:\n  <n>\n\nUsage: grow <n>\n\nFor more information, try '--help'.\n",
    ),
    (
        &["grow", "61"],
        "error: invalid value '61' for '<n>': 61 is not in 1..=60\n\nFor more information, try '--help'.\n",
    ),
];

/// These words.
fn listed(alloc: Global, said: &[&str]) -> Result<Vec<Word>, AllocError> {
    let mut list = Vec::new(alloc);
    for text in said {
        list.push(word(alloc, text)?)?;
    }
    Ok(list)
}

/// What is told of words that are no command.
fn told(alloc: Global, words: &[Word]) -> Option<String> {
    match complaint_of(alloc, words) {
        Ok(Some(complaint)) => format!(in alloc; "{complaint}").ok(),
        _ => None,
    }
}

/// What is told of these words, if they are no command.
fn complaint(alloc: Global, said: &[&str]) -> Option<String> {
    let list = listed(alloc, said).ok()?;
    let text = told(alloc, list.as_slice());
    drop(list);
    text
}

#[test]
fn complaints_name_words(rt: HostRuntime) -> Result<(), Fail> {
    for (said, text) in &COMPLAINTS {
        wants(complaint(rt.alloc(), said), text)?;
    }
    Ok(())
}
