//! What a word stands for.

ghost use Rattle.std.specs.Prelude.{◌≡◌, ◌<◌, IfOk, Ok};
ghost use Rattle.std.specs.List.{list_all};
ghost use Rattle.std.specs.Char.{is_ascii_digit};
ghost use Rattle.script_values.specs.Values.{is_digits, number_of, wide_of, long_of, hex_digit_of, byte_of, pairs, bytes_of, magnitude, fill_of, is_task_name, is_task_byte, task_name_of, path_of, text_of, ref_name_of, id_of, tries_in, pick_in, drops_in, policy_in, count_of, cutoff_of, flags_of};
ghost use Rattle.script_values.specs.Words.{seen};
ghost use Rattle.script_values.specs.Parts.{each};
ghost use Rattle.script_values.specs.SoFar.{parts_seen};

use crate::kinds::ScriptKind;
use crate::parts::{both, with_part};
use crate::words::cut;
use conflicts::{Pick, Policy};
use ice_base::{Bytes, NameFault, RefName, Text};
use ice_ids::Id12;
use moments::cutoff_read;
use std::alloc::{AllocError, Global};
use std::marker::Model;
use zarr_path::{Path, PathFault};

/// The name of a task: 1 to 16 bytes of `a` to `z`, `0` to `9` and `_`. Contracts see it as the bytes of its text.
#[derive(Drop)]
pub struct TaskName {
    text: String,
}

impl Model for TaskName {
    ghost use Rattle.std.specs.Prelude.{ℕ, List, IsTrue};
    ghost use Rattle.std.specs.String.{string_bytes};

    ghost Value = { List ℕ };

    ghost use Rattle.script_values.specs.Values.{is_task_name};

    ghost view = { λ name. string_bytes name.text };

    ghost invariant = { λ name. IsTrue (is_task_name (string_bytes name.text)) };
}

impl TaskName {
    ghost use Rattle.std.specs.Prelude.{IsTrue};
    ghost use Rattle.script_values.specs.Values.{is_task_name};

    /// The text of the name.
    pub fn as_str(&self) -> &str
        ensures value { result.now ≡ self.now }
        ensures name { IsTrue (is_task_name self.now) }
    {
        self.text.as_str()
    }
}

fn are_task_bytes(word: &str) -> bool
    ensures { result ≡ list_all is_task_byte word.now }
{
    word.bytes().all(|b| b.is_ascii_lowercase() || b.is_ascii_digit() || b == b'_')
}

fn is_task_name(word: &str) -> bool
    ensures { result ≡ is_task_name word.now }
{
    if word.is_empty() {
        return false;
    }
    if word.len() > 16 {
        return false;
    }
    are_task_bytes(word)
}

/// The name of a task that a word is.
#[tactic(auto, unfolding(crate::specs::Values::task_name_of))]
pub fn task_name_in(alloc: Global, word: &str) -> Result<Result<TaskName, ScriptKind>, AllocError>
    ensures { IfOk result (λ r. r ≡ task_name_of word.now) }
{
    if !is_task_name(word) {
        return Ok(Err(ScriptKind::Name));
    }
    let text = String::from_str(alloc, word)?;
    Ok(Ok(TaskName { text }))
}

/// The path that a word is.
#[tactic(auto, unfolding(crate::specs::Values::path_of))]
pub fn path_in(alloc: Global, word: &str) -> Result<Result<Path, ScriptKind>, AllocError>
    ensures { IfOk result (λ r. r ≡ path_of word.now) }
{
    match Path::read(alloc, word) {
        Ok(path) => Ok(Ok(path)),
        Err(PathFault::NoMemory) => Err(AllocError),
        Err(_) => Ok(Err(ScriptKind::Path)),
    }
}

/// The text that a word is, or all that is left of a line.
pub fn text_in(alloc: Global, word: &str) -> Result<Text, AllocError>
    ensures { IfOk result (λ text. text_of word.now ≡ Ok text) }
{
    Text::of(alloc, word)
}

/// The name of a branch or a tag that a word is.
#[tactic(auto, unfolding(crate::specs::Values::ref_name_of))]
pub fn ref_name_in(alloc: Global, word: &str) -> Result<Result<RefName, ScriptKind>, AllocError>
    ensures { IfOk result (λ r. r ≡ ref_name_of word.now) }
{
    match RefName::read(alloc, word) {
        Ok(name) => Ok(Ok(name)),
        Err(NameFault::NoMemory) => Err(AllocError),
        Err(_) => Ok(Err(ScriptKind::Name)),
    }
}

/// The id of a snapshot that a word is.
#[tactic(auto, unfolding(crate::specs::Values::id_of))]
pub fn id_in(word: &str) -> Result<Id12, ScriptKind>
    ensures { result ≡ id_of word.now }
{
    match Id12::read(word.as_bytes()) {
        Ok(id) => Ok(id),
        Err(_) => Err(ScriptKind::Id),
    }
}

fn are_digits(word: &str) -> bool
    ensures { result ≡ list_all is_ascii_digit word.now }
{
    word.bytes().all(|b| b.is_ascii_digit())
}

fn is_digits(word: &str) -> bool
    ensures { result ≡ is_digits word.now }
{
    if word.is_empty() {
        return false;
    }
    are_digits(word)
}

/// The number from `least` to `most` that a word's decimal digits stand for.
#[tactic(auto, unfolding(crate::specs::Values::number_of), using(crate::proofs::Digits::parsed))]
pub fn number_in(word: &str, least: u32, most: u32) -> Result<u32, ScriptKind>
    ensures { result ≡ number_of least most word.now }
{
    if !is_digits(word) {
        return Err(ScriptKind::Number);
    }
    match word.parse::<u32>() {
        Ok(value) => {
            if least <= value && value <= most {
                Ok(value)
            } else {
                Err(ScriptKind::Number)
            }
        }
        Err(_) => Err(ScriptKind::Number),
    }
}

/// The number of up to 64 bits that a word's decimal digits stand for.
#[tactic(auto, unfolding(crate::specs::Values::number_of), using(crate::proofs::Digits::parsed_long))]
pub fn long_in(word: &str) -> Result<u64, ScriptKind>
    ensures { result ≡ long_of word.now }
{
    if !is_digits(word) {
        return Err(ScriptKind::Number);
    }
    match word.parse::<u64>() {
        Ok(value) => Ok(value),
        Err(_) => Err(ScriptKind::Number),
    }
}

/// The number of up to 128 bits that a word's decimal digits stand for.
#[tactic(auto, unfolding(crate::specs::Values::number_of), using(crate::proofs::Digits::parsed_wide))]
pub fn wide_in(word: &str) -> Result<u128, ScriptKind>
    ensures { result ≡ wide_of word.now }
{
    if !is_digits(word) {
        return Err(ScriptKind::Number);
    }
    match word.parse::<u128>() {
        Ok(value) => Ok(value),
        Err(_) => Err(ScriptKind::Number),
    }
}

/// The value of a digit of base 16.
#[tactic(auto, unfolding(crate::specs::Values::hex_digit_of))]
fn hex_digit_in(digit: u8) -> Result<u8, ScriptKind>
    ensures value { result ≡ hex_digit_of digit }
    ensures low { IfOk result (λ value. value < 16) }
{
    match digit {
        b'0'..=b'9' => Ok(digit - b'0'),
        b'a'..=b'f' => Ok(digit - b'a' + 10),
        _ => Err(ScriptKind::Hex),
    }
}

/// The byte that two digits of base 16 stand for.
#[tactic(auto, unfolding(crate::specs::Values::byte_of))]
fn byte_of(digits: &[u8]) -> Result<u8, ScriptKind>
    ensures { result ≡ byte_of digits.now }
{
    let [high, low] = digits else {
        return Err(ScriptKind::Hex);
    };
    match both(hex_digit_in(*high), hex_digit_in(*low)) {
        Ok((high, low)) => Ok(high * 16 + low),
        Err(kind) => Err(kind),
    }
}

/// The byte that a word stands for.
pub fn byte_in(word: &str) -> Result<u8, ScriptKind>
    ensures { result ≡ byte_of word.now }
{
    byte_of(word.as_bytes())
}

/// The bytes that pairs of digits of base 16 stand for.
fn pairs_in(alloc: Global, digits: &[u8]) -> Result<Result<Vec<u8>, ScriptKind>, AllocError>
    ensures { IfOk result (λ r. parts_seen r ≡ each byte_of (pairs digits.now)) }
{
    let mut bytes = Ok(Vec::new(alloc));
    for pair in digits.chunks(2) {
        bytes = with_part(bytes, byte_of(pair))?;
    }
    Ok(bytes)
}

/// The bytes that a word stands for, of which `-` stands for none.
#[tactic(auto, unfolding(crate::specs::Values::bytes_of))]
pub fn bytes_in(alloc: Global, word: &str) -> Result<Result<Bytes, ScriptKind>, AllocError>
    ensures { IfOk result (λ r. r ≡ bytes_of word.now) }
{
    if word == "-" {
        return Ok(Ok(Bytes::new(alloc)));
    }
    match pairs_in(alloc, word.as_bytes())? {
        Ok(bytes) => Ok(Ok(Bytes::from_vec(bytes))),
        Err(kind) => Ok(Err(kind)),
    }
}

/// A word without the `-` before it.
fn magnitude(word: &str) -> &str
    ensures { result.now ≡ magnitude word.now }
{
    match word.strip_prefix('-') {
        Some(digits) => digits,
        None => word,
    }
}

/// The fill value that a word stands for.
#[tactic(auto, unfolding(crate::specs::Values::fill_of))]
pub fn fill_in(word: &str) -> Result<i128, ScriptKind>
    ensures { result ≡ fill_of word.now }
{
    if !is_digits(magnitude(word)) {
        return Err(ScriptKind::Number);
    }
    match word.parse::<i128>() {
        Ok(value) => Ok(value),
        Err(_) => Err(ScriptKind::Number),
    }
}

/// The count of a turn, which is 1 where none stands.
#[tactic(auto, unfolding(crate::specs::Values::count_of))]
pub fn count_in(text: Option<&str>) -> Result<u32, ScriptKind>
    ensures { result ≡ count_of (seen text.entry) }
{
    match text {
        None => Ok(1),
        Some(word) => number_in(word, 1, 9999),
    }
}

/// The cutoff that a word stands for, in microseconds since 1970.
#[tactic(auto, using(crate::proofs::Cutoffs::read_cutoff))]
pub fn cutoff_in(word: &str) -> Result<u64, ScriptKind>
    ensures { result ≡ cutoff_of word.now }
{
    match cutoff_read(word) {
        Ok(cutoff) => Ok(cutoff),
        Err(_) => Err(ScriptKind::Number),
    }
}

/// Whether an expiry drops branches, and whether it drops tags.
#[tactic(auto, unfolding(crate::specs::Values::flags_of))]
pub fn flags_in(word: &str) -> Result<(bool, bool), ScriptKind>
    ensures { result ≡ flags_of word.now }
{
    match word {
        "keep" => Ok((false, false)),
        "branches" => Ok((true, false)),
        "tags" => Ok((false, true)),
        "both" => Ok((true, true)),
        _ => Err(ScriptKind::Word),
    }
}

/// How often a commit may be carried over those of others.
#[tactic(auto, unfolding(crate::specs::Values::tries_in))]
pub fn tries_in(word: &str) -> Result<u8, ScriptKind>
    ensures { result ≡ tries_in word.now }
{
    match word.as_bytes() {
        [digit @ b'0'..=b'9'] => Ok(digit - b'0'),
        _ => Err(ScriptKind::Number),
    }
}

/// What becomes of a chunk that both sides wrote.
#[tactic(auto, unfolding(crate::specs::Values::pick_in))]
fn pick_in(word: &str) -> Result<Pick, ScriptKind>
    ensures { result ≡ pick_in word.now }
{
    match word {
        "fail" => Ok(Pick::Fail),
        "ours" => Ok(Pick::Ours),
        "theirs" => Ok(Pick::Theirs),
        _ => Err(ScriptKind::Word),
    }
}

/// Whether updated arrays may be dropped, and whether groups may.
#[tactic(auto, unfolding(crate::specs::Values::drops_in))]
fn drops_in(text: Option<&str>) -> Result<(bool, bool), ScriptKind>
    ensures { result ≡ drops_in (seen text.entry) }
{
    match text {
        None => Ok((false, false)),
        Some("a") => Ok((true, false)),
        Some("g") => Ok((false, true)),
        Some("ag") => Ok((true, true)),
        Some(_) => Err(ScriptKind::Word),
    }
}

/// How conflicts are solved.
#[tactic(auto, unfolding(crate::specs::Values::policy_in))]
pub fn policy_in(word: &str) -> Result<Policy, ScriptKind>
    ensures { result ≡ policy_in word.now }
{
    let (chunks, drops) = cut(word, '+');
    match both(pick_in(chunks), drops_in(drops)) {
        Ok((chunks, (drop_arrays, drop_groups))) => Ok(Policy {
            chunks,
            drop_arrays,
            drop_groups,
        }),
        Err(kind) => Err(kind),
    }
}
