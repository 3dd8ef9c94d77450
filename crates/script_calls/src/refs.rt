//! The forms of what names a snapshot, and of lines of refs.

ghost use Rattle.std.specs.Prelude.{◌≡◌, IfOk};
ghost use Rattle.script_values.specs.Words.{seen};
ghost use Rattle.script_calls.specs.Forms.{at_of, lone_at, lone_name, name_and_at, ref_of};

use crate::calls::RefCall;
use ice_base::RefName;
use repo_read::At;
use script_values::ScriptKind;
use script_values::parts::both;
use script_values::values::{id_in, ref_name_in};
use script_values::words::{one, three, two};
use std::alloc::{AllocError, Global};

/// What names a snapshot, by two words.
#[tactic(auto, unfolding(crate::specs::Forms::at_of))]
fn at_in(alloc: Global, word: &str, name: &str) -> Result<Result<At, ScriptKind>, AllocError>
    ensures { IfOk result (λ r. r ≡ at_of word.now name.now) }
{
    Ok(match word {
        "branch" => ref_name_in(alloc, name)?.map(At::Branch),
        "tag" => ref_name_in(alloc, name)?.map(At::Tag),
        "id" => id_in(name).map(At::Snapshot),
        _ => Err(ScriptKind::Word),
    })
}

/// What names a snapshot, and nothing else, is left of a line.
#[tactic(auto, unfolding(crate::specs::Forms::lone_at))]
pub fn lone_at(alloc: Global, rest: Option<&str>) -> Result<Result<At, ScriptKind>, AllocError>
    ensures { IfOk result (λ r. r ≡ lone_at (seen rest.entry)) }
{
    match two(rest) {
        Some((word, name)) => at_in(alloc, word, name),
        None => Ok(Err(ScriptKind::Word)),
    }
}

/// The name of a ref that is left of a line.
#[tactic(auto, unfolding(crate::specs::Forms::lone_name))]
fn lone_name(alloc: Global, rest: Option<&str>) -> Result<Result<RefName, ScriptKind>, AllocError>
    ensures { IfOk result (λ r. r ≡ lone_name (seen rest.entry)) }
{
    match one(rest) {
        Some(name) => ref_name_in(alloc, name),
        None => Ok(Err(ScriptKind::Word)),
    }
}

/// The name of a ref, and what names a snapshot.
#[tactic(auto, unfolding(crate::specs::Forms::name_and_at))]
fn name_and_at(
    alloc: Global,
    rest: Option<&str>,
) -> Result<Result<(RefName, At), ScriptKind>, AllocError>
    ensures { IfOk result (λ r. r ≡ name_and_at (seen rest.entry)) }
{
    let Some((name, word, at)) = three(rest) else {
        return Ok(Err(ScriptKind::Word));
    };
    let name = ref_name_in(alloc, name)?;
    let at = at_in(alloc, word, at)?;
    Ok(both(name, at))
}

/// What a line calls that is about refs.
#[tactic(auto, unfolding(crate::specs::Forms::ref_of))]
pub fn ref_call(
    alloc: Global,
    first: &str,
    rest: Option<&str>,
) -> Result<Option<Result<RefCall, ScriptKind>>, AllocError>
    ensures { IfOk result (λ call. call ≡ ref_of first.now (seen rest.entry)) }
{
    Ok(Some(match first {
        "branch" => name_and_at(alloc, rest)?.map(|(name, at)| RefCall::Branch { name, at }),
        "reset" => name_and_at(alloc, rest)?.map(|(name, at)| RefCall::Reset { name, at }),
        "unbranch" => lone_name(alloc, rest)?.map(|name| RefCall::Unbranch { name }),
        "tag" => name_and_at(alloc, rest)?.map(|(name, at)| RefCall::Tag { name, at }),
        "untag" => lone_name(alloc, rest)?.map(|name| RefCall::Untag { name }),
        "log" => lone_at(alloc, rest)?.map(|at| RefCall::Log { at }),
        _ => return Ok(None),
    }))
}
