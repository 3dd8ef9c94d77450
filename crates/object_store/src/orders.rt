//! The order of keys: by part, and within a part that of a listing.

ghost use Rattle.std.specs.Cmp.{eq_by_cmp_equiv, partial_equiv_from_equiv, partial_order_from_total};
ghost use Rattle.std.specs.Ordering.{eq_by_cmp, as_partial_cmp};
ghost use Rattle.std.specs.Prelude.{◌≡◌, ◌<◌, refl};
ghost use Rattle.object_store.specs.Machine.{name_of, rank_of, listing_cmp};
ghost use Rattle.object_store.specs.Orders.{place_of, key_cmp, key_total};

use crate::{Key, Part};
use std::cmp::Ordering;

impl Part {
    /// How many parts there are.
    pub const COUNT: usize = 7;

    /// Its place among the parts.
    pub fn place(self) -> usize
        ensures place { result ≡ place_of self }
        ensures within { result < Self.COUNT }
    {
        match self {
            Part::Snapshots => 0,
            Part::Manifests => 1,
            Part::Txns => 2,
            Part::Chunks => 3,
            Part::Branches => 4,
            Part::Tags => 5,
            Part::Leases => 6,
        }
    }
}

impl Key {
    /// The bytes of its id or name.
    fn name(&self) -> &[u8]
        ensures { result.now ≡ name_of self.now }
    {
        match self {
            Key::Snapshot(id)
            | Key::Manifest(id)
            | Key::Txn(id)
            | Key::Chunk(id)
            | Key::Lease(id) => &id.0,
            Key::Branch(name) | Key::Tag(name) | Key::Tombstone(name) => name.as_bytes(),
        }
    }

    /// A tag stands before its tombstone.
    fn rank(&self) -> u8
        ensures { result ≡ rank_of self.now }
    {
        match self {
            Key::Tombstone(_) => 1,
            Key::Snapshot(_)
            | Key::Manifest(_)
            | Key::Txn(_)
            | Key::Chunk(_)
            | Key::Branch(_)
            | Key::Tag(_)
            | Key::Lease(_) => 0,
        }
    }

    /// The order of a listing.
    fn listed_cmp(&self, other: &Key) -> Ordering
        ensures { result ≡ listing_cmp self.now other.now }
    {
        self.name()
            .cmp(&other.name())
            .then(self.rank().cmp(&other.rank()))
    }
}

impl PartialEq for Key {
    ghost eq = { eq_by_cmp key_cmp };

    ghost laws = { partial_equiv_from_equiv (eq_by_cmp_equiv key_total) };

    fn eq(&self, other: &Key) -> bool {
        self.cmp(other) == Ordering::Equal
    }
}

impl Eq for Key {
    ghost laws = { eq_by_cmp_equiv key_total };
}

impl PartialOrd for Key {
    ghost partial_cmp = { as_partial_cmp key_cmp };

    ghost laws = { partial_order_from_total key_total };

    fn partial_cmp(&self, other: &Key) -> Option<Ordering> {
        Some(self.cmp(other))
    }
}

/// Keys of one part stand together, in the order of its listing.
impl Ord for Key {
    ghost cmp = { key_cmp };

    ghost total = { key_total };

    ghost matches_partial_cmp = { λ a b. refl };

    ghost matches_eq = { λ a b. refl };

    fn cmp(&self, other: &Key) -> Ordering {
        let place = self.part().place().cmp(&other.part().place());
        place.then(self.listed_cmp(other))
    }
}
