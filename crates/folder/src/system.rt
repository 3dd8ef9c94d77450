//! Folders of the system. What it holds can't be told by a contract: this file alone is trusted to do what [`Folder`] says,
//! call by call.

ghost use Rattle.std.specs.Prelude.{◌≡◌, ◌+◌, ◌-◌, ◌*◌, ◌/◌, ◌^◌, ℕ, pos, min, false, None, [], IfOk, string_bytes};
ghost use Rattle.folder.specs.System.{root_of};

use crate::faults::{done, done_in_memory, refused};
use crate::{Call, Cause, FileFault, Folder, Kind, Seen, Trouble, failed};
use std::alloc::{AllocError, Global};
use std::fs::{DirEntry, Metadata, OpenFile, OpenOptions};
use std::io::{ErrorKind, Read, Write};
use std::os::unix::fs::MetadataExt;
use std::rt::Files;
use std::{fs, io};

/// A folder that is open, and what was seen of it before.
#[derive(Drop)]
struct OpenFolder<F> {
    file: F,
    seen: Seen,
}

/// A folder of the system, and what lies beneath it. What lies at a path is asked before it is opened, without following
/// links, and again of the open file. The folder that was flushed last stays open: as long as it is, no other one has its
/// numbers.
#[derive(Drop)]
pub struct SystemFolder<R: Files> {
    rt: R,
    root: String,
    flushed: Option<OpenFolder<R::File>>,
}

/// A file of the system that is written, and where it lies.
#[derive(Drop)]
pub struct SystemDraft<F> {
    file: F,
    path: String,
}

/// Whether nothing lies at a path.
fn is_missing(kind: ErrorKind) -> bool {
    kind == ErrorKind::NotFound || kind == ErrorKind::NotADirectory
}

/// A time in microseconds since 1970, or 0 before.
fn micros(seconds: i64, nanos: i64) -> u64
    ensures { (s n : ℕ) → seconds ≡ pos s → nanos ≡ pos n
        → result ≡ min (s * 1000000 + n / 1000) (2 ^ 64 - 1) }
{
    let seconds = u64::try_from(seconds).unwrap_or(0);
    let nanos = u64::try_from(nanos).unwrap_or(0);
    seconds
        .saturating_mul(1_000_000)
        .saturating_add(nanos / 1000)
}

fn kind_of(metadata: &Metadata) -> Kind {
    if metadata.is_file() {
        Kind::File
    } else if metadata.is_dir() {
        Kind::Folder
    } else {
        Kind::Other
    }
}

fn seen_of(metadata: &Metadata) -> Seen {
    Seen {
        kind: kind_of(metadata),
        size: metadata.len(),
        changed: micros(metadata.mtime(), metadata.mtime_nsec()),
        device: metadata.dev(),
        number: metadata.ino(),
    }
}

/// What lies at a path, if anything does: a link itself, and not what it leads to.
pub(crate) fn look<R: Files>(rt: &R, path: &str) -> Result<Option<Seen>, Trouble> {
    match fs::symlink_metadata(rt, path) {
        Ok(metadata) => Ok(Some(seen_of(&metadata))),
        Err(error) if is_missing(error.kind()) => Ok(None),
        Err(error) => Err(refused(Call::Look, &error)),
    }
}

/// The folder that a path lies in.
fn folder_of(path: &str) -> &str {
    match path.rsplit_once('/') {
        Some((folder, _)) => folder,
        None => path,
    }
}

/// Whether a folder lies at a path. Beneath a plain file nothing lies; what is neither, as a link to a
/// folder, is a fault.
fn is_folder<R: Files>(rt: &R, path: &str) -> Result<bool, Trouble> {
    match look(rt, path)? {
        None => Ok(false),
        Some(seen) if seen.kind == Kind::Other => Err(failed(Call::Look, Cause::Unreached)),
        Some(seen) => Ok(seen.kind == Kind::Folder),
    }
}

/// Whether the folders that a path lies in are there, beneath this one: one or two.
fn is_reached<R: Files>(rt: &R, root: &str, path: &str) -> Result<bool, Trouble> {
    let folder = folder_of(path);
    let above = folder_of(folder);
    if above != root && !is_folder(rt, above)? {
        return Ok(false);
    }
    is_folder(rt, folder)
}

/// The plain file that lies at a path whose folders are there, if anything does.
fn plain_at<R: Files>(rt: &R, path: &str) -> Result<Option<Seen>, Trouble> {
    match look(rt, path)? {
        Some(seen) if seen.kind != Kind::File => Err(failed(Call::Look, Cause::NotFile)),
        found => Ok(found),
    }
}

/// Whether the same file or folder was seen twice.
fn is_same(one: &Seen, other: &Seen) -> bool {
    one.kind == other.kind && one.device == other.device && one.number == other.number
}

/// That an open file is what was seen where it was opened. So a link that was put there meanwhile was
/// followed, but nothing behind it is read.
pub(crate) fn check_same<F: OpenFile>(file: &F, seen: &Seen) -> Result<(), Trouble> {
    let opened = seen_of(&done(Call::Look, file.metadata())?);
    if is_same(&opened, seen) {
        Ok(())
    } else {
        Err(failed(Call::Open, Cause::Changed))
    }
}

/// Opens the file or the folder that was seen at a path, to be read.
fn open_seen<R: Files>(rt: &R, path: &str, seen: &Seen) -> Result<R::File, Trouble> {
    let file = done(Call::Open, fs::open(rt, path))?;
    check_same(&file, seen)?;
    Ok(file)
}

/// Adds a name.
fn push_name(alloc: Global, name: &str, names: &mut Vec<String>) -> Result<(), AllocError> {
    names.push(String::from_str(alloc, name)?)?;
    Ok(())
}

/// Adds the name of an entry, if it is text.
fn add_name<R: Files + Drop>(
    alloc: Global,
    entry: io::Result<DirEntry<R, Global>>,
    names: &mut Vec<String>,
) -> Result<(), FileFault> {
    match entry {
        Ok(entry) => Ok(push_name(alloc, entry.file_name(), names)?),
        Err(error) if error.kind() == ErrorKind::InvalidFilename => Ok(()),
        Err(error) => done_in_memory(Call::List, Err(error)),
    }
}

/// The names in a folder that was seen.
fn names_in<R: Files + AllocGlobal + Clone + Drop>(
    rt: &R,
    alloc: Global,
    path: &str,
) -> Result<Vec<String>, FileFault> {
    let mut names = Vec::new(alloc);
    for entry in done_in_memory(Call::List, fs::read_dir(rt, path))? {
        add_name(alloc, entry, &mut names)?;
    }
    Ok(names)
}

impl<R: Files + AllocGlobal + Clone + Drop> SystemFolder<R> {
    /// The folder at this path.
    pub fn at(rt: R, path: &str) -> Result<SystemFolder<R>, AllocError>
        ensures { IfOk result (λ folder. root_of folder ≡ path.now) }
    {
        Ok(SystemFolder {
            root: String::from_str(rt.alloc(), path)?,
            rt,
            flushed: None,
        })
    }

    /// The folder that was seen at a path, open: the one that was flushed last, where it is that one.
    fn opened(&mut self, path: &str, seen: &Seen) -> Result<R::File, Trouble> {
        if let Some(OpenFolder { file, seen: last }) = self.flushed.take() {
            if is_same(&last, seen) {
                return Ok(file);
            }
        }
        open_seen(&self.rt, path, seen)
    }
}

impl<R: Files + AllocGlobal + Clone + Drop> Folder for SystemFolder<R> {
    type Reading = R::File;

    type Draft = SystemDraft<R::File>;

    ghost tells = { false };

    ghost files = { λ _ _. None };

    ghost rest = { λ _. [] };

    ghost written = { λ _. [] };

    ghost aside = { λ draft. string_bytes draft.path };

    ghost flushed = { λ _. false };

    ghost loose = { λ _ _. Unit {0} };

    ghost moment = { λ _. 0 };

    ghost left = { λ _ _ _ _. Unit {0} };

    fn look(&self, path: &str) -> Result<Option<Seen>, Trouble> {
        look(&self.rt, path)
    }

    fn file(&self, path: &str) -> Result<Option<Seen>, Trouble> {
        if is_reached(&self.rt, self.root.as_str(), path)? {
            plain_at(&self.rt, path)
        } else {
            Ok(None)
        }
    }

    fn open(&self, path: &str, seen: &Seen) -> Result<R::File, Trouble> {
        open_seen(&self.rt, path, seen)
    }

    fn read(&self, file: &mut R::File, piece: &mut [u8]) -> Result<usize, Trouble> {
        done(Call::Read, file.read(piece))
    }

    fn list(&self, alloc: Global, path: &str) -> Result<Option<Vec<String>>, FileFault> {
        match look(&self.rt, path)? {
            None => Ok(None),
            Some(seen) if seen.kind != Kind::Folder => {
                Err(FileFault::from(failed(Call::List, Cause::NotFolder)))
            }
            Some(_) => Ok(Some(names_in(&self.rt, alloc, path)?)),
        }
    }

    fn create(&mut self, path: String) -> Result<Option<SystemDraft<R::File>>, Trouble> {
        let made = OpenOptions::new()
            .write(true)
            .create_new(true)
            .open(&self.rt, path.as_str());
        match made {
            Ok(file) => Ok(Some(SystemDraft { file, path })),
            Err(error) if error.kind() == ErrorKind::AlreadyExists => Ok(None),
            Err(error) if is_missing(error.kind()) => Err(failed(Call::Open, Cause::Unreached)),
            Err(error) => Err(refused(Call::Open, &error)),
        }
    }

    fn write(&mut self, draft: &mut SystemDraft<R::File>, bytes: &[u8]) -> Result<(), Trouble> {
        done(Call::Write, draft.file.write_all(bytes))
    }

    fn flush(&mut self, draft: &mut SystemDraft<R::File>) -> Result<(), Trouble> {
        done(Call::Flush, draft.file.sync_all())
    }

    fn place_new(&mut self, draft: SystemDraft<R::File>, path: &str) -> Result<bool, Trouble> {
        let linked = fs::hard_link(&self.rt, draft.path.as_str(), path);
        done(Call::Remove, fs::remove_file(&self.rt, draft.path.as_str()))?;
        match linked {
            Ok(()) => Ok(true),
            Err(error) if error.kind() == ErrorKind::AlreadyExists => Ok(false),
            Err(error) => Err(refused(Call::Link, &error)),
        }
    }

    fn place_over(&mut self, draft: SystemDraft<R::File>, path: &str) -> Result<(), Trouble> {
        match fs::rename(&self.rt, draft.path.as_str(), path) {
            Ok(()) => Ok(()),
            Err(error) => {
                self.discard(draft);
                Err(refused(Call::Move, &error))
            }
        }
    }

    fn discard(&mut self, draft: SystemDraft<R::File>) {
        let _ = fs::remove_file(&self.rt, draft.path.as_str());
    }

    fn remove(&mut self, path: &str) -> Result<bool, Trouble> {
        if self.file(path)?.is_none() {
            return Ok(false);
        }
        match fs::remove_file(&self.rt, path) {
            Ok(()) => Ok(true),
            Err(error) if is_missing(error.kind()) => Ok(false),
            Err(error) => Err(refused(Call::Remove, &error)),
        }
    }

    fn make_folder(&mut self, path: &str) -> Result<(), Trouble> {
        done(Call::MakeFolder, fs::create_dir(&self.rt, path))
    }

    fn flush_folder(&mut self, path: &str, seen: &Seen) -> Result<(), Trouble> {
        let file = self.opened(path, seen)?;
        done(Call::Flush, file.sync_all())?;
        self.flushed = Some(OpenFolder { file, seen: *seen });
        Ok(())
    }

    fn flush_root(&mut self, path: &str) -> Result<(), Trouble> {
        let folder = done(Call::Open, fs::open(&self.rt, path))?;
        done(Call::Flush, folder.sync_all())
    }

    ghost keeps = { λ _ _ _ _ firm _. absurd (firm tt) };
}
