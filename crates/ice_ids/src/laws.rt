//! Laws of ids: functions that do nothing, whose contracts are the laws.

ghost use Rattle.std.specs.Prelude.{◌≡◌, ◌↔◌, ◌<◌, ◌+◌, ◌^◌, ℕ, List, Option, Some, Ok, length, All, Contains, true};
ghost use Rattle.ice_ids.specs.declared.Id12.{Id12};
ghost use Rattle.ice_ids.specs.declared.Id8.{Id8};
ghost use Rattle.ice_ids.specs.declared.drawing.AnyIds.{AnyIds};
ghost use Rattle.ice_ids.specs.Text.{IsId12, IsId8, id12_text, id8_text, id12_of_text, id8_of_text, initial_id, id12_cmp, id8_cmp, same_id12, same_id8};
ghost use Rattle.ice_ids.specs.Sets.{has_object};
ghost use Rattle.ice_ids.specs.declared.drawing.Draw.TheVariants as Draw;
ghost use Rattle.ice_ids.specs.Drawing.{IsSource, DrawsOnce, left_of, drawn12, after12, drawn8, after8};

use crate::{Id8, Id12, Ids};

/// The text of an object id and its reading undo each other: each text that is read is the text of
/// the id that it is read as. A text has 20 letters, and no space, quote or line feed.
pub fn texts_of_object_ids()
    ensures read { (id : Id12) → IsId12 id → id12_of_text (id12_text id) ≡ Ok id }
    ensures written { (text : List ℕ) (id : Id12) → id12_of_text text ≡ Ok id
        → (text ≡ id12_text id) × IsId12 id }
    ensures long { (id : Id12) → length (id12_text id) ≡ 20 }
    ensures plain { (id : Id12) → All (λ letter. (47 < letter) × (letter < 91)) (id12_text id) }
{}

/// The text of a node id and its reading undo each other: each text that is read is the text of the
/// id that it is read as. A text has 13 letters, and no space, quote or line feed.
pub fn texts_of_node_ids()
    ensures read { (id : Id8) → IsId8 id → id8_of_text (id8_text id) ≡ Ok id }
    ensures written { (text : List ℕ) (id : Id8) → id8_of_text text ≡ Ok id → (text ≡ id8_text id)
        × IsId8 id }
    ensures long { (id : Id8) → length (id8_text id) ≡ 13 }
    ensures plain { (id : Id8) → All (λ letter. (47 < letter) × (letter < 91)) (id8_text id) }
{}

/// Ids are compared by their bytes.
pub fn compared_by_bytes()
    ensures same_objects { (a b : Id12) → ⟦<Id12 as PartialEq>⟧.eq a b ≡ same_id12 a b }
    ensures same_nodes { (a b : Id8) → ⟦<Id8 as PartialEq>⟧.eq a b ≡ same_id8 a b }
    ensures objects { (a b : Id12) → ⟦<Id12 as Ord>⟧.cmp a b ≡ id12_cmp a b }
    ensures nodes { (a b : Id8) → ⟦<Id8 as Ord>⟧.cmp a b ≡ id8_cmp a b }
{}

/// By counting no id is drawn twice, by whichever clients, and no object id that is drawn is that of the initial snapshot. In
/// whichever way ids are drawn, a draw leaves one fewer to draw.
pub fn drawn_ids()
    ensures once { (most : ℕ) → most < 2 ^ 32 → DrawsOnce Draw.Count most }
    ensures lowered { (ids : AnyIds) (id : Id12) → drawn12 ids ≡ Some id
        → left_of ids ≡ left_of (after12 ids) + 1 }
    ensures lowered_too { (ids : AnyIds) (id : Id8) → drawn8 ids ≡ Some id
        → left_of ids ≡ left_of (after8 ids) + 1 }
    ensures spelled { Id12.INITIAL ≡ initial_id }
{}

/// What each source of ids promises, also where code doesn't know which one it has: no id is answered exactly where
/// nothing is left to draw, and a draw moves on by one.
pub fn any_source<I: Ids>()
    ensures objects { IsSource I.left I.client I.drawn12 I.after12 }
    ensures nodes { IsSource I.left I.client I.drawn8 I.after8 }
{}

/// A set of objects has an id exactly where the list as which contracts see it has.
pub fn object_sets()
    ensures { (ids : List Id12) (id : Id12) → (has_object ids id ≡ true) ↔ Contains ids id }
{}
