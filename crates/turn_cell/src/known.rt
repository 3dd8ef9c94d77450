//! What a pass knows. These types exist in contracts alone: no value of them is made.
use std::collections::LinkedList;

/// A range of owner numbers: from `low` on, and below `end` where there is one.
pub struct Owners {
    pub low: u64,
    pub end: Option<u64>,
}

/// What a pass knows of the value in its cell: the journal and the count that it has seen. It has the owner numbers, and
/// between a `take` and its `give` it has the turn.
pub struct Known<E> {
    pub journal: LinkedList<E>,
    pub count: u64,
    pub owners: Owners,
    pub has_turn: bool,
}

/// What the table keeps of a pass: what it knows, and what the two passes of its last join knew.
pub struct Sight<E> {
    pub known: Known<E>,
    pub first: Known<E>,
    pub second: Known<E>,
}
