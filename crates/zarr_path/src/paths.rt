//! Paths of nodes.

ghost use Rattle.std.specs.Prelude.{◌≡◌, ℕ, ◌+◌, ◌^◌, ◌<◌, List, Option, length, MatchOption, option_map};
ghost use Rattle.std.specs.Prelude.{◌==◌, nat_eq, codes, IfOk, ◌↔◌, MatchResult, ◌∷◌, ◌≢◌};
ghost use Rattle.std.specs.String.{string_bytes};
ghost use Rattle.std.specs.List.{list_all, starts_with};
ghost use Rattle.zarr_path.specs.Paths.{is_name, first_bad, parts_of, path_fault, parent_of, folder, is_within, same_path};

use crate::parts::{cut_first, cut_last};
use std::alloc::{AllocError, Global};
use std::cmp::Ordering;
use std::error::Error;
use std::fmt;
use std::marker::Model;

/// How many bytes a path may have at most.
pub const MOST_PATH_BYTES: usize = 1024;

/// Why a text is no path, the first that holds in this order.
#[derive(Clone, Copy, Debug, PartialEq, Eq)]
pub enum PathFault {
    /// The text has this many bytes, which are too many.
    Long(usize),
    /// The text doesn't begin with `/`.
    Relative,
    /// The first name that isn't one begins at this byte, counted from 0: 3 in `/a//b`.
    Name(usize),
    /// Memory ran out.
    NoMemory,
}

impl fmt::Display for PathFault {
    ghost use Rattle.std.specs.Prelude.{Some};
    ghost use Rattle.zarr_path.specs.Told.{path_fault_text};

    ghost output = { λ fault. Some (path_fault_text fault) };

    fn fmt<W: fmt::Write>(&self, f: &mut fmt::Formatter<W>) -> fmt::Result {
        match self {
            PathFault::Long(bytes) => write!(f, "a path of {bytes} bytes is too long"),
            PathFault::Relative => write!(f, "a path begins with a slash"),
            PathFault::Name(at) => write!(f, "no name at byte {at} of a path"),
            PathFault::NoMemory => write!(f, "out of memory"),
        }
    }
}

impl Error for PathFault {}

impl From<AllocError> for PathFault {
    ghost use Rattle.std.specs.Prelude.{◌≡◌};
    ghost use Rattle.zarr_path.specs.declared.paths.PathFault.TheVariants.{NoMemory};

    ghost from_gives = { λ _ fault. fault ≡ NoMemory };

    fn from(_error: AllocError) -> PathFault {
        PathFault::NoMemory
    }
}

fn is_periods(name: &str) -> bool
    ensures { result ≡ list_all (λ b. b == 46) name.now }
{
    name.as_bytes().iter().all(|byte| *byte == b'.')
}

fn is_reserved(name: &str) -> bool
    ensures { result ≡ starts_with nat_eq name.now (codes "__") }
{
    name.starts_with("__")
}

/// Whether what stands between two slashes names a node.
#[tactic(auto, unfolding(crate::specs::Paths::is_name))]
fn is_name(name: &str) -> bool
    ensures { result ≡ is_name name.now }
{
    !name.is_empty() && !is_periods(name) && !is_reserved(name)
}

/// Where the first of a path's names that isn't one begins, in bytes; the names begin behind its first slash.
fn bad_name(names: &str) -> Option<usize>
    requires { length names.now < 2 ^ 63 }
    ensures { result ≡ first_bad 1 (parts_of names.now) }
{
    let mut at = 1;
    let mut rest = names;
    while let Some((name, further)) = cut_first(rest) {
        if !is_name(name) {
            return Some(at);
        }
        at += name.len() + 1;
        rest = further;
    }
    if is_name(rest) { None } else { Some(at) }
}

/// Why a text is no path, and None where it is one. It takes no memory.
#[tactic(auto, unfolding(crate::specs::Paths::path_fault, crate::specs::Paths::names_of))]
pub fn path_fault(text: &str) -> Option<PathFault>
    ensures { result ≡ path_fault text.now }
{
    if text.len() > MOST_PATH_BYTES {
        return Some(PathFault::Long(text.len()));
    }
    let Some(names) = text.strip_prefix('/') else {
        return Some(PathFault::Relative);
    };
    if names.is_empty() {
        return None;
    }
    bad_name(names).map(PathFault::Name)
}

/// The path of a node in a hierarchy: `/`, or `/` and names joined by `/`. Contracts see it as the
/// bytes of its text. Paths are ordered by these bytes, so what is beneath `/a` stands together but
/// not next to it: `/a-b` stands between `/a` and `/a/b`.
#[derive(Debug, Drop)]
pub struct Path {
    text: String,
}

impl Model for Path {
    ghost use Rattle.std.specs.Prelude.{ℕ, List, IsTrue};
    ghost use Rattle.std.specs.String.{string_bytes};

    ghost Value = { List ℕ };

    ghost use Rattle.zarr_path.specs.Paths.{is_path};

    ghost view = { λ p. string_bytes p.text };

    ghost invariant = { λ p. IsTrue (is_path (string_bytes p.text)) };
}

impl Path {
    ghost use Rattle.zarr_path.specs.Grammar.{ReadsSpelled};
    ghost use Rattle.zarr_path.specs.Paths.{ReadsPath, is_path, root, parent, is_within, is_beneath};
    ghost use Rattle.std.specs.Prelude.{IsTrue, Err, None};

    /// Reads a text as a path (Zarr v3 core specification, "Node names"): `/`, or `/` and names
    /// joined by `/`, of at most [`MOST_PATH_BYTES`] bytes. A name isn't empty, isn't made of
    /// periods alone and doesn't begin with `__`. The first fault is told, in the order of
    /// [`PathFault`]; memory is taken for a path alone.
    pub fn read(alloc: Global, text: &str) -> Result<Path, PathFault>
        ensures value { ReadsPath text.now result }
        ensures spelled { ReadsSpelled text.now result }
        ensures memory { result ≡ Err PathFault.NoMemory → path_fault text.now ≡ None }
    {
        match path_fault(text) {
            Some(fault) => Err(fault),
            None => Ok(Path {
                text: String::from_str(alloc, text)?,
            }),
        }
    }

    /// Reads a text as a path, and keeps it. It takes no memory.
    pub fn from_string(text: String) -> Result<Path, PathFault>
        ensures { MatchResult result
            (λ p. (p ≡ string_bytes text) × IsTrue (is_path p))
            (λ fault. path_fault (string_bytes text) ≡ Some fault) }
    {
        match path_fault(text.as_str()) {
            Some(fault) => Err(fault),
            None => Ok(Path { text }),
        }
    }

    /// The text, given back without memory.
    pub fn into_string(self) -> String
        ensures { string_bytes result ≡ self }
    {
        self.text
    }

    /// The text of the path.
    pub fn as_str(&self) -> &str
        ensures value { result.now ≡ self.now }
        ensures path { IsTrue (is_path self.now) }
    {
        self.text.as_str()
    }

    /// The path `/`.
    pub fn root(alloc: Global) -> Result<Path, AllocError>
        ensures { IfOk result (λ p. p ≡ root) }
    {
        Ok(Path {
            text: String::from_str(alloc, "/")?,
        })
    }

    /// The same path once more.
    pub fn copy(&self, alloc: Global) -> Result<Path, AllocError>
        ensures { IfOk result (λ p. p ≡ self.now) }
    {
        Ok(Path {
            text: String::from_str(alloc, self.as_str())?,
        })
    }

    /// The names, joined by slashes, and None of `/`.
    pub fn names(&self) -> Option<&str>
        ensures { MatchOption result
            (self.now ≡ root)
            (λ names. (self.now ≢ root) × (self.now ≡ 47 ∷ names.now)) }
    {
        if self.is_root() {
            None
        } else {
            self.as_str().strip_prefix('/')
        }
    }

    /// Whether this is `/`.
    pub fn is_root(&self) -> bool
        ensures { IsTrue result ↔ (self.now ≡ root) }
    {
        self.as_str() == "/"
    }

    /// The path of the group that this node stands in, and None of `/`.
    pub fn parent(&self, alloc: Global) -> Result<Option<Path>, AllocError>
        ensures { IfOk result (λ p. p ≡ parent self.now) }
    {
        if self.is_root() {
            return Ok(None);
        }
        let text = String::from_str(alloc, parent_text(self.as_str()))?;
        Ok(Some(Path { text }))
    }

    /// Whether this path is another one, or beneath it.
    pub fn is_within(&self, of: &Path) -> bool
        ensures { result ≡ is_within of.now self.now }
    {
        is_within(of.as_str(), self.as_str())
    }

    /// Whether this path is beneath another one, and not that one itself.
    pub fn is_beneath(&self, of: &Path) -> bool
        ensures { result ≡ is_beneath of.now self.now }
    {
        self.is_within(of) && !same_text(self.as_str(), of.as_str())
    }
}

fn same_text(path: &str, other: &str) -> bool
    ensures { result ≡ same_path path.now other.now }
{
    path == other
}

/// Whether the text of a path is that of another one, or of one beneath it. It takes no memory.
pub fn is_within(of: &str, path: &str) -> bool
    ensures { result ≡ is_within of.now path.now }
{
    stands_within(of.as_bytes(), path.as_bytes())
}

fn stands_within(of: &[u8], path: &[u8]) -> bool
    ensures { result ≡ is_within of.now path.now }
{
    path == of || begins_with_folder(of, path)
}

/// The text of a path's parent, and `/` of `/`. It takes no memory.
#[tactic(auto, unfolding(crate::specs::Paths::parent_of))]
pub fn parent_text(text: &str) -> &str
    ensures { result.now ≡ parent_of text.now }
{
    match cut_last(text) {
        Some((before, _)) if !before.is_empty() => before,
        _ => "/",
    }
}

/// Whether a path begins as those beneath another do.
fn begins_with_folder(of: &[u8], path: &[u8]) -> bool
    ensures { result ≡ starts_with nat_eq path.now (folder of.now) }
{
    if of == b"/".as_slice() {
        return path.starts_with(b"/".as_slice());
    }
    if path.len() <= of.len() {
        return false;
    }
    if !path.starts_with(of) {
        return false;
    }
    path[of.len()] == b'/'
}

impl PartialEq for Path {
    ghost use Rattle.std.specs.Prelude.{nat_eq};
    ghost use Rattle.std.specs.Cmp.{partial_equiv_from_equiv};
    ghost use Rattle.std.specs.Cmp.Lexicographic.{pointwise};
    ghost use Rattle.std.proofs.lemmas.Cmp.{nat_list_eq_equiv};

    ghost eq = { pointwise nat_eq };

    ghost laws = { partial_equiv_from_equiv nat_list_eq_equiv };

    fn eq(&self, other: &Path) -> bool {
        self.as_str() == other.as_str()
    }
}

impl Eq for Path {
    ghost use Rattle.std.proofs.lemmas.Cmp.{nat_list_eq_equiv};

    ghost laws = { nat_list_eq_equiv };
}

impl PartialOrd for Path {
    ghost use Rattle.zarr_path.specs.Paths.{path_cmp};
    ghost use Rattle.std.specs.Ordering.{as_partial_cmp};
    ghost use Rattle.std.specs.Cmp.{partial_order_from_own_ties};
    ghost use Rattle.std.specs.Cmp.Rules.{comparing};
    ghost use Rattle.std.proofs.Common.{rules};

    ghost partial_cmp = { as_partial_cmp path_cmp };

    ghost laws = { partial_order_from_own_ties (Prim.search (comparing, rules)) (Prim.search (comparing, rules)) };

    fn partial_cmp(&self, other: &Path) -> Option<Ordering> {
        Some(self.cmp(other))
    }
}

impl Ord for Path {
    ghost use Rattle.zarr_path.specs.Paths.{path_cmp};
    ghost use Rattle.std.specs.Cmp.Rules.{comparing};
    ghost use Rattle.std.proofs.Common.{rules};

    ghost cmp = { path_cmp };

    ghost total = { Prim.search (comparing, rules) };

    ghost matches_partial_cmp = { Prim.search (comparing, rules) };

    ghost matches_eq = { Prim.search (comparing, rules) };

    fn cmp(&self, other: &Path) -> Ordering {
        self.as_str().cmp(other.as_str())
    }
}

impl fmt::Display for Path {
    ghost use Rattle.std.specs.Prelude.{Some};

    ghost output = { λ p. Some p };

    fn fmt<W: fmt::Write>(&self, f: &mut fmt::Formatter<W>) -> fmt::Result {
        f.write_str(self.as_str())
    }
}
