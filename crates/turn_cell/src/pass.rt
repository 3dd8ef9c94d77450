//! A pass of a cell.
ghost use Rattle.std.specs.Prelude.{◌≡◌};
ghost use Rattle.turn_cell.specs.Hands.{hands};

use crate::journaled::Journaled;
use crate::known::Sight;
use atomic_table::Seat;

/// What one caller knows of a cell of a `T` whose entries are `E`s. It has no bytes, and may cross threads where a `T`
/// may. See [`Pass`].
///
/// It may be dropped. Its owner numbers are then lost, and where it had the turn, so are the value and the turn: each
/// later `take` and `close` waits for ever.
#[derive(Drop)]
pub struct Token<T, E> {
    pub(crate) seat: Seat<Option<T>, Sight<E>>,
    ghost held: { seat.me.1 ≡ hands seat.me.0.known.has_turn },
}

/// A pass of a cell of a `T`. It belongs to one cell, and every call asks for passes of its own cell (`IsPassOf`).
pub type Pass<T> = Token<T, <T as Journaled>::Entry>;
