//! Names of branches and tags.

ghost use Rattle.std.specs.Prelude.{◌≡◌, ◌≢◌, ◌++◌, List, ℕ, length, string_bytes, IfOk, MatchResult, None, Some, position};
ghost use Rattle.ice_base.specs.Names.{is_barred, name_fault, IsRefName, RefusesName, main_name};

use std::alloc::{AllocError, Global};
use std::cmp::Ordering;
use std::fmt;
use std::marker::Model;

/// The most bytes that a name has.
const MOST: usize = 200;

/// Why a text is no name of a ref.
#[derive(Clone, Copy, Debug, Drop, PartialEq, Eq)]
pub enum NameFault {
    /// It has no byte.
    Empty,
    /// It has this many bytes, and more than 200.
    Long(usize),
    /// The first byte that is `/`, below 32 or 127 stands at this place, counted from 0.
    Byte(usize),
    /// There was no memory for it.
    NoMemory,
}

/// The name of a branch or a tag: 1 to 200 bytes without `/` and without the bytes 0 to 31 and 127.
/// Names are ordered by their bytes. (Icechunk specification version 1, refs; this project's profile.)
#[derive(Debug, Drop)]
pub struct RefName {
    text: String,
}

impl Model for RefName {
    ghost use Rattle.std.specs.Prelude.{List, ℕ, string_bytes};
    ghost use Rattle.ice_base.specs.Names.{IsRefName};

    ghost Value = { List ℕ };

    ghost view = { λ n. string_bytes n.text };

    ghost invariant = { λ n. IsRefName (string_bytes n.text) };
}

/// Whether no name has this byte.
fn is_barred(byte: u8) -> bool
    ensures { result ≡ is_barred byte }
{
    byte == b'/' || byte < b' ' || byte == 127
}

/// The place of the first byte that no name has.
fn barred_at(bytes: &[u8]) -> Option<usize>
    ensures { result ≡ position is_barred bytes.now }
{
    bytes.iter().position(|byte| is_barred(*byte))
}

/// What is wrong with a name, if anything.
#[tactic(auto, unfolding(crate::specs::Names::name_fault))]
fn fault_of(text: &str) -> Option<NameFault>
    ensures fault { result ≡ name_fault text.now }
    ensures memory { result ≢ Some NameFault.NoMemory }
{
    if text.is_empty() {
        return Some(NameFault::Empty);
    }
    if text.len() > MOST {
        return Some(NameFault::Long(text.len()));
    }
    barred_at(text.as_bytes()).map(NameFault::Byte)
}

impl RefName {
    /// Reads a name. The faults come in the order in which `NameFault` lists them; memory is taken for
    /// a name alone.
    pub fn read(alloc: Global, text: &str) -> Result<RefName, NameFault>
        ensures { MatchResult result (λ name. (name ≡ text.now) × IsRefName text.now)
            (RefusesName text.now) }
    {
        if let Some(fault) = fault_of(text) {
            return Err(fault);
        }
        match String::from_str(alloc, text) {
            Ok(text) => Ok(RefName { text }),
            Err(_) => Err(NameFault::NoMemory),
        }
    }

    /// `main`, the branch that each repository has.
    #[tactic(auto, unfolding(crate::specs::Names::name_fault))]
    pub fn main(alloc: Global) -> Result<RefName, AllocError>
        ensures { IfOk result (λ name. name ≡ main_name) }
    {
        Ok(RefName {
            text: String::from_str(alloc, "main")?,
        })
    }

    /// The same name once more.
    pub fn copy(&self, alloc: Global) -> Result<RefName, AllocError>
        ensures { IfOk result (λ name. name ≡ self.now) }
    {
        Ok(RefName {
            text: String::from_str(alloc, self.text.as_str())?,
        })
    }

    /// The name's text.
    pub fn as_str(&self) -> &str
        ensures value { result.now ≡ self.now }
        ensures name { IsRefName self.now }
    {
        self.text.as_str()
    }

    /// The bytes of the name's text.
    pub fn as_bytes(&self) -> &[u8]
        ensures value { result.now ≡ self.now }
        ensures name { IsRefName self.now }
    {
        self.text.as_bytes()
    }
}

impl PartialEq for RefName {
    ghost use Rattle.std.specs.Cmp.{on_per, partial_equiv_from_equiv};
    ghost use Rattle.std.specs.Cmp.Lexicographic.{nat_list_eq_equiv};
    ghost use Rattle.ice_base.specs.Names.{same_name};

    ghost eq = { same_name };

    ghost laws = { on_per (λ n. n) (partial_equiv_from_equiv nat_list_eq_equiv) };

    fn eq(&self, other: &RefName) -> bool {
        self.as_str() == other.as_str()
    }
}

impl Eq for RefName {
    ghost use Rattle.std.specs.Cmp.{on_equiv};
    ghost use Rattle.std.specs.Cmp.Lexicographic.{nat_list_eq_equiv};

    ghost laws = { on_equiv (λ n. n) nat_list_eq_equiv };
}

impl PartialOrd for RefName {
    ghost use Rattle.std.specs.Prelude.{Some};
    ghost use Rattle.std.specs.Cmp.{on_po};
    ghost use Rattle.std.specs.Cmp.Lexicographic.{texts_po};
    ghost use Rattle.ice_base.specs.Names.{name_cmp};

    ghost partial_cmp = { λ a b. Some (name_cmp a b) };

    ghost laws = { on_po (λ n. n) texts_po };

    fn partial_cmp(&self, other: &RefName) -> Option<Ordering> {
        Some(self.cmp(other))
    }
}

impl Ord for RefName {
    ghost use Rattle.std.specs.Prelude.{refl};
    ghost use Rattle.std.specs.Cmp.{on_total};
    ghost use Rattle.std.specs.Cmp.Lexicographic.{nat_list_cmp_total, texts_ties};
    ghost use Rattle.ice_base.specs.Names.{name_cmp};

    ghost cmp = { name_cmp };

    ghost total = { on_total (λ n. n) nat_list_cmp_total };

    ghost matches_partial_cmp = { λ a b. refl };

    ghost matches_eq = { texts_ties };

    fn cmp(&self, other: &RefName) -> Ordering {
        self.as_str().cmp(other.as_str())
    }
}

impl fmt::Display for RefName {
    ghost use Rattle.std.specs.Prelude.{Some};

    ghost output = { λ n. Some n };

    fn fmt<W: fmt::Write>(&self, f: &mut fmt::Formatter<W>) -> fmt::Result {
        f.write_str(self.as_str())
    }
}
