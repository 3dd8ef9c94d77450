//! Parts of a line, all of their values or the earliest of their faults.

ghost use Rattle.std.specs.Prelude.{◌≡◌, IfOk};
ghost use Rattle.script_values.specs.Parts.{◌&◌, made, only_if};
ghost use Rattle.script_values.specs.SoFar.{parts_seen, one_more};

use crate::boxed::Boxed;
use crate::kinds::ScriptKind;
use std::alloc::{AllocError, Global};

/// Two parts of a line, or the earlier of their faults.
pub fn both<A: Drop, B: Drop>(
    first: Result<A, ScriptKind>,
    second: Result<B, ScriptKind>,
) -> Result<(A, B), ScriptKind>
    ensures { result ≡ (first & second) }
{
    match (first, second) {
        (Ok(first), Ok(second)) => Ok((first, second)),
        (Ok(_), Err(kind)) => Err(kind),
        (Err(kind), Ok(_)) => Err(kind),
        (Err(kind), Err(other)) => Err(kind.earlier(other)),
    }
}

/// A part of a line, in memory of its own.
pub fn boxed<T: Drop>(
    alloc: Global,
    part: Result<T, ScriptKind>,
) -> Result<Result<Boxed<T>, ScriptKind>, AllocError>
    ensures { IfOk result (λ r. r ≡ part) }
{
    match part {
        Ok(value) => Ok(Ok(Boxed::new(alloc, value)?)),
        Err(kind) => Ok(Err(kind)),
    }
}

/// The parts so far and one more, or the earlier of their faults.
pub fn with_part<T: Drop>(
    parts: Result<Vec<T>, ScriptKind>,
    part: Result<T, ScriptKind>,
) -> Result<Result<Vec<T>, ScriptKind>, AllocError>
    ensures { IfOk result (λ r. parts_seen r ≡ made one_more (parts_seen parts & part)) }
{
    match both(parts, part) {
        Ok((mut parts, part)) => {
            parts.push(part)?;
            Ok(Ok(parts))
        }
        Err(kind) => Ok(Err(kind)),
    }
}

/// A part without a value: a condition that the line must meet.
pub fn only_if(holds: bool, kind: ScriptKind) -> Result<(), ScriptKind>
    ensures { result ≡ only_if holds kind }
{
    if holds { Ok(()) } else { Err(kind) }
}
