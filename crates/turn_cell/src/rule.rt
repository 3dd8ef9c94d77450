//! The rule of the cell's table, and what its steps tell. These types are for the proofs alone.
ghost use Rattle.std.specs.Prelude.{ℕ};
ghost use Rattle.turn_cell.specs.Owners.{lower_part, upper_part};
ghost use Rattle.turn_cell.specs.SeenJournals.{starting, joined, nothing};
ghost use Rattle.turn_cell.specs.Turns.{Kept, plain, took, gave, looked};

use crate::journaled::Journaled;
use crate::known::Sight;
use atomic_table::{Join, Play, Split, TableRule};
use std::marker::{Brand, PhantomData};
use std::snapshot::Snapshot;

pub struct Turns;

impl<T: Journaled> TableRule<Option<T>, Sight<T::Entry>, Snapshot<T>> for Turns {
    ghost holds = { λ _. Kept T.journal T.owner T.count };

    ghost first = { λ key. plain (starting (T.journal key.value) (T.count key.value)) };
}

/// The turn was found free and is taken, or it was found taken.
pub struct Take;

impl<T: Journaled> Play<Option<T>, Sight<T::Entry>> for Take {
    ghost then = { took T.journal T.owner T.count };
}

/// The turn is given back.
pub struct Give;

impl<T: Journaled> Play<Option<T>, Sight<T::Entry>> for Give {
    ghost then = { gave T.journal T.owner T.count };
}

/// What two passes knew, after they were joined.
pub struct Look;

impl<T: Journaled> Play<Option<T>, Sight<T::Entry>> for Look {
    ghost then = { looked T.journal T.owner T.count };
}

/// Where a range of owner numbers is cut. Each call of `split` picks it.
pub trait Cut {
    ghost at: { ℕ };
}

impl Cut for Brand {
    ghost at = { 0 };
}

pub struct Parts<C> {
    marker: PhantomData<C>,
}

impl<E, C: Cut> Split<Sight<E>> for Parts<C> {
    ghost left = { λ v. plain (record v.known { owners = lower_part C.at v.known.owners }) };

    ghost right = { λ v. plain (record v.known { owners = upper_part C.at v.known.owners }) };
}

pub struct Both;

impl<E> Join<Sight<E>> for Both {
    ghost both = { λ v w. record { known = joined v.known w.known; first = v.known; second = w.known } };

    ghost spent = { plain nothing };
}
