//! Laws along commits: each function's clause is the law, and its body is empty.

ghost use Rattle.std.specs.Prelude.{ℕ, List, Option};
ghost use Rattle.manifest_file.specs.declared.manifest.Place.{Place};
ghost use Rattle.zarr_tree.specs.Trees.{Tree};
ghost use Rattle.zarr_tree.specs.Changes.{Changes};
ghost use Rattle.conflicts.specs.declared.solving.Policy.{Policy};
ghost use Rattle.rebase.specs.Along.{Link};
ghost use Rattle.rebase.specs.AlongLaws.{NormalLaw, QuietLaw, MeansLaw, OnlyLaw, OwnLaw};

/// Along commits whose logs are right no log hides a node, and what is still held stays normal.
pub fn normal_law()
    ensures { (bytes_at : Place → Option (List ℕ)) → NormalLaw bytes_at }
{}

/// Where no commit conflicts, nothing is given up, and the changes and what the commits did give one tree in either order.
pub fn quiet_law()
    ensures { QuietLaw }
{}

/// What becomes of changes along commits is what the conflicts with each say.
pub fn means_law()
    ensures { (bytes_at : Place → Option (List ℕ)) → MeansLaw bytes_at }
{}

/// Of what becomes of changes one thing alone can be said.
pub fn only_law()
    ensures { (policy : Policy) (c : Changes) (t : Tree) (links : List Link)
        → OnlyLaw policy c t links }
{}

/// A commit of the session itself stops it; and up to such a one, or from a base without nodes on, what is still held stays normal.
pub fn own_law()
    ensures { (bytes_at : Place → Option (List ℕ)) → OwnLaw bytes_at }
{}
