//! The forms of heads.

ghost use Rattle.std.specs.Prelude.{◌≡◌, IfOk};
ghost use Rattle.script_values.specs.Words.{seen};
ghost use Rattle.script_calls.specs.Forms.{write_of, refs_of, collect_of, expire_of, check_of, head_of};

use crate::calls::{Access, Head};
use crate::refs::lone_at;
use script_values::ScriptKind;
use script_values::parts::both;
use script_values::values::{cutoff_in, flags_in, policy_in, ref_name_in, tries_in};
use script_values::words::{one, three, two};
use std::alloc::{AllocError, Global};

/// A session that writes.
#[tactic(auto, unfolding(crate::specs::Forms::write_of))]
fn write(alloc: Global, rest: Option<&str>) -> Result<Result<Access, ScriptKind>, AllocError>
    ensures { IfOk result (λ r. r ≡ write_of (seen rest.entry)) }
{
    let Some((branch, tries, policy)) = three(rest) else {
        return Ok(Err(ScriptKind::Word));
    };
    let branch = ref_name_in(alloc, branch)?;
    Ok(
        match both(both(branch, tries_in(tries)), policy_in(policy)) {
            Ok(((branch, tries), policy)) => Ok(Access::Write {
                branch,
                tries,
                policy,
            }),
            Err(kind) => Err(kind),
        },
    )
}

/// A task of refs, behind whose word nothing stands.
fn refs(rest: Option<&str>) -> Result<Head, ScriptKind>
    ensures { result ≡ refs_of (seen rest.entry) }
{
    match rest {
        None => Ok(Head::Refs),
        Some(_) => Err(ScriptKind::Word),
    }
}

/// A task that collects, behind whose word its cutoff stands.
fn collect(rest: Option<&str>) -> Result<Head, ScriptKind>
    ensures { result ≡ collect_of (seen rest.entry) }
{
    match one(rest) {
        Some(word) => cutoff_in(word).map(|cutoff| Head::Collect { cutoff }),
        None => Err(ScriptKind::Word),
    }
}

/// A task that expires, behind whose word its cutoff stands, and which refs it drops.
#[tactic(auto, unfolding(crate::specs::Forms::expire_of))]
fn expire(rest: Option<&str>) -> Result<Head, ScriptKind>
    ensures { result ≡ expire_of (seen rest.entry) }
{
    let Some((cutoff, flags)) = two(rest) else {
        return Err(ScriptKind::Word);
    };
    match both(cutoff_in(cutoff), flags_in(flags)) {
        Ok((cutoff, (drop_branches, drop_tags))) => Ok(Head::Expire {
            cutoff,
            drop_branches,
            drop_tags,
        }),
        Err(kind) => Err(kind),
    }
}

/// A task that checks, behind whose word nothing stands.
fn check(rest: Option<&str>) -> Result<Head, ScriptKind>
    ensures { result ≡ check_of (seen rest.entry) }
{
    match rest {
        None => Ok(Head::Check),
        Some(_) => Err(ScriptKind::Word),
    }
}

/// A head by its word.
#[tactic(auto, unfolding(crate::specs::Forms::head_of))]
pub fn head_in(
    alloc: Global,
    word: &str,
    rest: Option<&str>,
) -> Result<Result<Head, ScriptKind>, AllocError>
    ensures { IfOk result (λ r. r ≡ head_of word.now (seen rest.entry)) }
{
    Ok(match word {
        "write" => write(alloc, rest)?.map(Head::Session),
        "read" => lone_at(alloc, rest)?.map(|at| Head::Session(Access::Read { at })),
        "refs" => refs(rest),
        "collect" => collect(rest),
        "expire" => expire(rest),
        "check" => check(rest),
        _ => Err(ScriptKind::Word),
    })
}
