//! What confirms a lease.

ghost use Rattle.std.specs.Prelude.{◌≡◌, IfOk, IsSome, MatchResult};
ghost use Rattle.leases.specs.Plays.{witness_of};

use ice_base::RefName;
use session::{Origin, Tip};
use std::alloc::{AllocError, Global};

/// The ref that named a session's base, which has to confirm a lease of it.
#[derive(Debug, Drop)]
pub enum Witness {
    /// A branch, which has to stand at the version at which it named the base.
    Branch(Tip),
    /// A tag, which may have no tombstone.
    Tag(RefName),
}

/// A copy of a branch with its version.
fn copy_tip(alloc: Global, tip: &Tip) -> Result<Tip, AllocError>
    ensures { IfOk result (λ copy. copy ≡ tip.now) }
{
    let branch = tip.branch.copy(alloc)?;
    Ok(Tip {
        branch,
        version: tip.version,
    })
}

impl Witness {
    /// What confirms a lease of the base that this named; where its own id named it, nothing does, and that takes no memory.
    pub(crate) fn of(alloc: Global, origin: &Origin) -> Result<Option<Witness>, AllocError>
        ensures { MatchResult result (λ witness. witness ≡ witness_of origin.now)
            (λ _. IsSome (witness_of origin.now)) }
    {
        match origin {
            Origin::Writes(tip) => Ok(Some(Witness::Branch(copy_tip(alloc, tip)?))),
            Origin::ReadsBranch(tip) => Ok(Some(Witness::Branch(copy_tip(alloc, tip)?))),
            Origin::ReadsTag(tag) => Ok(Some(Witness::Tag(tag.copy(alloc)?))),
            Origin::ReadsId => Ok(None),
        }
    }
}
