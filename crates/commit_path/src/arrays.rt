//! The arrays of a commit.

ghost use Rattle.std.specs.Prelude.{◌≡◌, ◌<◌, [], None, length, OnOk, OnErr, MatchBool, MatchOption};
ghost use Rattle.flat_tables.specs.Rows.{Ascends};
ghost use Rattle.changed_snapshot.specs.declared.new_snapshot.NewList.{NewList as TheList};
ghost use Rattle.zarr_changes.specs.declared.chunks.ChangedArray.{ChangedArray as TheArray};
ghost use Rattle.commit_path.specs.inside.Lists.{IsFirst, closed};

use changed_snapshot::{NewList, NewManifest};
use ice_items::Items;
use std::alloc::{AllocError, Global};
use std::collections::VecDeque;
use std::marker::Model;
use zarr_changes::ChangedArray;

/// The arrays of a commit: the new lists of those that are written, and those that are left.
#[derive(Drop)]
pub struct Arrays {
    news: Items<NewList>,
    left: VecDeque<ChangedArray>,
}

impl Model for Arrays {
    ghost use Rattle.commit_path.specs.Arrays.{ArraysState};
    ghost use Rattle.commit_path.specs.inside.Lists.{AreInOrder};

    ghost Value = { ArraysState };

    ghost view = { λ a. record { news = a.news; left = a.left.items } };

    ghost invariant = { λ a. AreInOrder (record { news = a.news; left = a.left.items }) };
}

impl Arrays {
    /// All these arrays are left.
    pub fn new(alloc: Global, arrays: Items<ChangedArray>) -> Arrays
        requires { Ascends (λ (a : TheArray). a.path) None arrays }
        ensures news { result.news ≡ [] }
        ensures left { result.left ≡ arrays }
    {
        Arrays {
            news: Items::new(alloc),
            left: VecDeque::from_vec(arrays.into_vec()),
        }
    }

    /// The new lists of those that are written.
    pub fn news(&self) -> &[NewList]
        ensures value { result.now ≡ self.now.news }
        ensures order { Ascends (λ (l : TheList). l.path) None result.now }
    {
        self.news.as_slice()
    }

    /// The first one that is left.
    pub fn first(&self) -> Option<&ChangedArray>
        ensures { MatchOption result (self.now.left ≡ []) (λ a. IsFirst self.now.left a.now) }
    {
        self.left.front()
    }

    /// Whether one is left.
    pub fn is_left(&self) -> bool
        ensures { MatchBool result (0 < length self.now.left) (self.now.left ≡ []) }
    {
        !self.left.is_empty()
    }

    /// The first one that is left has this list. Without memory for it, all stays as it is.
    pub fn close(&mut self, alloc: Global, manifest: Option<NewManifest>) -> Result<(), AllocError>
        ensures ok { OnOk result (self.new ≡ closed self.old manifest) }
        ensures err { OnErr result (self.new ≡ self.old) }
    {
        if let Some(array) = self.left.front() {
            let path = array.path.copy(alloc)?;
            self.news.push(NewList { path, manifest })?;
            self.left.pop_front();
        }
        Ok(())
    }
}
