//! A folder in memory.

ghost use Rattle.std.specs.Prelude.{◌≢◌, ◌==◌, ◌+◌, ◌-◌, ◌^◌, min, take, MatchOption, codes, List, ℕ, map, ◌≡◌, ◌≤◌, true, length, drop, option_copied, Some, IfOk, IfSome, OnErr, OnOk, ◌++◌, ◌∷◌, [], string_bytes};
ghost use Rattle.std.proofs.Common.{ap, ◌∙◌};
ghost use Rattle.folder.specs.Files.{Leaves, IsKept, IsSeen, IsFileSeen, HasBytes, SameBut, IsFileName, IsBehind, HasName};
ghost use Rattle.std.specs.List.{before_first};
ghost use Rattle.folder.specs.Memory.{content_at, file_at, content_of, file_of, ChangedTo, AddsName, Lay};
ghost use Rattle.std.proofs.lemmas.List.{take_all};

use crate::{Call, Cause, FileFault, Folder, Kind, Seen, Trouble, failed};
use ice_base::Bytes;
use std::alloc::{AllocError, Global};

/// What lies at a path.
#[derive(Drop)]
enum Content {
    Nothing,
    Folder,
    File { bytes: Bytes, changed: u64 },
}

/// A change of what lies at a path.
#[derive(Drop)]
struct Change {
    path: String,
    content: Content,
}

/// A folder in memory, which tells what it holds. It keeps each change. After so many more calls that change something it is cut
/// off, as where a program is killed: each further one fails, and changes nothing.
#[derive(Drop)]
pub struct MemoryFolder {
    alloc: Global,
    changes: Vec<Change>,
    calls_left: u64,
}

/// A file in memory that is read.
#[derive(Drop)]
pub struct MemoryReading {
    bytes: Bytes,
    place: usize,
    ghost within: { place ≤ length bytes },
}

/// A file in memory that is written.
#[derive(Drop)]
pub struct MemoryDraft {
    path: String,
    bytes: Bytes,
    flushed: bool,
}

/// What lies at a path after these changes, if anything was changed there.
fn standing<'a>(changes: &'a [Change], path: &str) -> Option<&'a Content>
    ensures { content_of (option_copied result) ≡ content_at changes.now path.now }
{
    let mut found = None;
    for change in changes {
        if change.path.as_str() == path {
            found = Some(&change.content);
        }
    }
    found
}

/// What is seen of a content.
fn seen_of(content: Option<&Content>) -> Option<Seen>
    ensures { IsSeen (file_of (content_of (option_copied content.entry))) result }
{
    let (kind, size, changed) = match content {
        None | Some(Content::Nothing) => return None,
        Some(Content::Folder) => (Kind::Folder, 0, 0),
        Some(Content::File { bytes, changed }) => (Kind::File, bytes.len() as u64, *changed),
    };
    Some(Seen {
        kind,
        size,
        changed,
        device: 0,
        number: 0,
    })
}

impl MemoryFolder {
    /// An empty folder.
    pub fn new(alloc: Global) -> MemoryFolder
        ensures files { result.changes.items ≡ [] }
        ensures left { result.calls_left ≡ 2 ^ 64 - 1 }
    {
        MemoryFolder {
            alloc,
            changes: Vec::new(alloc),
            calls_left: u64::MAX,
        }
    }

    /// Cuts the folder off after so many more calls that change something.
    pub fn cut_after(&mut self, calls: u64)
        ensures files { self.new.changes.items ≡ self.old.changes.items }
        ensures left { self.new.calls_left ≡ calls }
    {
        self.calls_left = calls;
    }

    /// How many more calls that change something are made before it is cut off.
    pub fn calls_left(&self) -> u64
        ensures { result ≡ self.now.calls_left }
    {
        self.calls_left
    }

    /// Counts a call that changes something, and fails where the folder was cut off before.
    fn begin(&mut self, call: Call) -> Result<(), Trouble>
        ensures files { self.new.changes.items ≡ self.old.changes.items }
        ensures counted { OnOk result (self.old.calls_left ≡ self.new.calls_left + 1) }
        ensures cut { OnErr result ((self.old.calls_left ≡ 0) × (self.new.calls_left ≡ 0)) }
    {
        if self.calls_left == 0 {
            return Err(failed(call, Cause::CutOff));
        }
        self.calls_left -= 1;
        Ok(())
    }

    /// What lies at a path.
    fn content(&self, path: &str) -> Option<&Content>
        ensures { content_of (option_copied result) ≡ content_at self.now.changes.items path.now }
    {
        standing(self.changes.as_slice(), path)
    }

    /// Moves a draft to a path.
    fn place(&mut self, call: Call, draft: MemoryDraft, path: &str) -> Result<(), Trouble>
        ensures ok { OnOk result (HasBytes draft.bytes (file_at self.new.changes.items path.now)) }
        ensures others { SameBut path.now (file_at self.old.changes.items)
            (file_at self.new.changes.items) }
        ensures err { OnErr result (self.new.changes.items ≡ self.old.changes.items) }
        ensures left { Leaves (IsKept (file_at self.new.changes.items)) (Lay self.old.changes.items)
            (Lay self.new.changes.items) }
    {
        let content = Content::File {
            bytes: draft.bytes,
            changed: self.changes.len() as u64,
        };
        match self.change(path, content) {
            Ok(()) => Ok(()),
            Err(()) => Err(no_room(call)),
        }
    }

    /// Changes what lies at a path.
    fn change(&mut self, path: &str, content: Content) -> Result<(), ()>
        ensures ok { OnOk result (ChangedTo self.old.changes.items self.new.changes.items path.now
            content) }
        ensures err { OnErr result (self.new.changes.items ≡ self.old.changes.items) }
        ensures left { Leaves (IsKept (file_at self.new.changes.items)) (Lay self.old.changes.items)
            (Lay self.new.changes.items) }
    {
        let Ok(path) = String::from_str(self.alloc, path) else {
            return Err(());
        };
        match self.changes.push(Change { path, content }) {
            Ok(()) => Ok(()),
            Err(_) => Err(()),
        }
    }
}

/// What stands behind this start of a path.
fn after<'a>(path: &'a str, start: &str) -> Option<&'a str>
    ensures { MatchOption result ((rest : List ℕ) → path.now ≢ start.now ++ rest)
        (λ rest. path.now ≡ start.now ++ rest.now) }
{
    path.strip_prefix(start)
}

/// What stands before the first slash, if there is one.
fn first_name(inside: &str) -> &str
    ensures { result.now ≡ before_first (λ byte. byte == 47) inside.now }
{
    match inside.split_once('/') {
        Some((name, _)) => name,
        None => inside,
    }
}

/// The name in a folder at which or beneath which a path leads, if one is.
fn name_in<'a>(path: &'a str, folder: &str) -> Option<&'a str>
    ensures { (name rest : List ℕ) → IsFileName name → IsBehind rest
        → path.now ≡ folder.now ++ codes "/" ++ name ++ rest → option_copied result ≡ Some name }
{
    Some(first_name(after(after(path, folder)?, "/")?))
}

/// Adds the name in a folder at which or beneath which a path leads, if one is.
fn add_name(
    alloc: Global,
    path: &str,
    folder: &str,
    names: &mut Vec<String>,
) -> Result<(), AllocError>
    ensures { OnOk result (AddsName path.now folder.now (map string_bytes names.old.items)
        (map string_bytes names.new.items)) }
{
    if let Some(name) = name_in(path, folder) {
        names.push(String::from_str(alloc, name)?)?;
    }
    Ok(())
}

/// Copies as many bytes as are there and fit.
fn copied(from: &[u8], into: &mut [u8]) -> usize
    ensures count { result ≡ min (length from.now) (length into.old) }
    ensures into { take result into.new ≡ take result from.now }
{
    let count = from.len().min(into.len());
    into[..count].copy_from_slice(&from[..count]);
    count
}

/// No room in memory.
fn no_room(call: Call) -> Trouble {
    failed(call, Cause::NoRoom)
}

/// The plain file that a content is: none where nothing is, and a fault where something else is.
fn plain(content: Option<&Content>) -> Result<Option<Seen>, Trouble>
    ensures { IfOk result (IsFileSeen (file_of (content_of (option_copied content.entry)))) }
{
    match seen_of(content) {
        Some(seen) if seen.kind != Kind::File => Err(failed(Call::Look, Cause::NotFile)),
        found => Ok(found),
    }
}

impl Folder for MemoryFolder {
    type Reading = MemoryReading;

    type Draft = MemoryDraft;

    ghost tells = { true };

    ghost files = { λ folder path. file_at folder.changes.items path };

    ghost rest = { λ file. drop file.place file.bytes };

    ghost written = { λ draft. draft.bytes };

    ghost aside = { λ draft. string_bytes draft.path };

    ghost flushed = { λ draft. draft.flushed };

    ghost loose = { λ _ _. ⊥ };

    ghost moment = { λ folder. length folder.changes.items };

    ghost left = { λ folder. Lay folder.changes.items };

    fn look(&self, path: &str) -> Result<Option<Seen>, Trouble> {
        Ok(seen_of(self.content(path)))
    }

    fn file(&self, path: &str) -> Result<Option<Seen>, Trouble> {
        plain(self.content(path))
    }

    fn open(&self, path: &str, _seen: &Seen) -> Result<MemoryReading, Trouble> {
        let Some(Content::File { bytes, .. }) = self.content(path) else {
            return Err(failed(Call::Open, Cause::NotFile));
        };
        match bytes.copy(self.alloc) {
            Ok(bytes) => Ok(MemoryReading { bytes, place: 0 }),
            Err(_) => Err(no_room(Call::Open)),
        }
    }

    fn read(&self, file: &mut MemoryReading, piece: &mut [u8]) -> Result<usize, Trouble> {
        let count = copied(&file.bytes.as_slice()[file.place..], piece);
        file.place += count;
        Ok(count)
    }

    fn list(&self, alloc: Global, path: &str) -> Result<Option<Vec<String>>, FileFault> {
        let mut names = Vec::new(alloc);
        for change in self.changes.as_slice() {
            add_name(alloc, change.path.as_str(), path, &mut names)?;
        }
        Ok(Some(names))
    }

    fn create(&mut self, path: String) -> Result<Option<MemoryDraft>, Trouble> {
        self.begin(Call::Open)?;
        if seen_of(self.content(path.as_str())).is_some() {
            return Ok(None);
        }
        Ok(Some(MemoryDraft {
            path,
            bytes: Bytes::new(self.alloc),
            flushed: false,
        }))
    }

    fn write(&mut self, draft: &mut MemoryDraft, bytes: &[u8]) -> Result<(), Trouble> {
        self.begin(Call::Write)?;
        draft.flushed = false;
        match draft.bytes.extend(bytes) {
            Ok(()) => Ok(()),
            Err(_) => Err(no_room(Call::Write)),
        }
    }

    fn flush(&mut self, draft: &mut MemoryDraft) -> Result<(), Trouble> {
        self.begin(Call::Flush)?;
        draft.flushed = true;
        Ok(())
    }

    fn place_new(&mut self, draft: MemoryDraft, path: &str) -> Result<bool, Trouble> {
        self.begin(Call::Link)?;
        match plain(self.content(path))? {
            Some(_) => Ok(false),
            None => {
                self.place(Call::Link, draft, path)?;
                Ok(true)
            }
        }
    }

    fn place_over(&mut self, draft: MemoryDraft, path: &str) -> Result<(), Trouble> {
        self.begin(Call::Move)?;
        self.place(Call::Move, draft, path)
    }

    fn discard(&mut self, draft: MemoryDraft) {
        drop(draft);
    }

    fn remove(&mut self, path: &str) -> Result<bool, Trouble> {
        self.begin(Call::Remove)?;
        if plain(self.content(path))?.is_none() {
            return Ok(false);
        }
        match self.change(path, Content::Nothing) {
            Ok(()) => Ok(true),
            Err(()) => Err(no_room(Call::Remove)),
        }
    }

    fn make_folder(&mut self, path: &str) -> Result<(), Trouble> {
        self.begin(Call::MakeFolder)?;
        if seen_of(self.content(path)).is_some() {
            return Err(failed(Call::MakeFolder, Cause::Unnamed));
        }
        match self.change(path, Content::Folder) {
            Ok(()) => Ok(()),
            Err(()) => Err(no_room(Call::MakeFolder)),
        }
    }

    fn flush_folder(&mut self, _path: &str, _seen: &Seen) -> Result<(), Trouble> {
        self.begin(Call::Flush)
    }

    fn flush_root(&mut self, _path: &str) -> Result<(), Trouble> {
        self.begin(Call::Flush)
    }

    ghost keeps = { λ folder p f tells firm lay. lay.is ∙ ap (λ changes. file_at changes p) (take_all lay.moment folder.changes.items lay.from) };
}
