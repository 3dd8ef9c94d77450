//! What named a session's base.

ghost use Rattle.std.specs.Prelude.{◌≡◌};
ghost use Rattle.session.specs.Sessions.{origin_at};

use ice_base::RefName;
use store_api::Version;

/// A branch, and the version at which it named the session's base.
#[derive(Debug, Drop)]
pub struct Tip {
    /// The branch.
    pub branch: RefName,
    /// The version.
    pub version: Version,
}

/// What named a session's base, and whether the session writes. Leases ask a ref to confirm it.
#[derive(Debug, Drop)]
pub enum Origin {
    /// A branch, to which the session writes.
    Writes(Tip),
    /// A branch; the session only reads.
    ReadsBranch(Tip),
    /// A tag.
    ReadsTag(RefName),
    /// The snapshot's own id.
    ReadsId,
}

impl Origin {
    /// The same branch at another version; a tag and an id stay.
    pub(crate) fn renew(&mut self, version: Version)
        ensures { self.new ≡ origin_at version.0 self.old }
    {
        match self {
            Origin::Writes(tip) => tip.version = version,
            Origin::ReadsBranch(tip) => tip.version = version,
            Origin::ReadsTag(_) | Origin::ReadsId => {}
        }
    }
}
