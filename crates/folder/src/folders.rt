//! What is asked of folders and files.

ghost use Rattle.std.specs.Prelude.{◌≡◌, ◌≢◌, ◌≤◌, ◌++◌, ℕ, Bool, List, [], Option, None, IsTrue, length, map, string_bytes, IfOk, IfErr, OnOk, IfSome, MatchOption};
ghost use Rattle.folder.specs.declared.faults.Cause.TheVariants as Cause;
ghost use Rattle.folder.specs.Files.{StoredFile, HasBytes, IsSeen, IsFileSeen, ReadsOn, SameBut, SameButTwo, PlacesNew, PlacesOver, Removes, TellsNames, HoldsNone, NoneLoose, LooseIn, TellsLoose, NoLooser, LooserAt, LooserAtTwo, LoosensNew, LoosensGone, Firms, Leaves, IsKept, IsKeptBut, IsChanged, IsPlaced, IsNew};

use crate::{FileFault, Seen, Trouble};
use std::alloc::Global;

/// Folders and files, in the words of POSIX. Paths are whole. A plain file is written aside, by a draft, and then moved to its
/// place; what stands at a place is never written on. So what was opened stays as it was, and each draft is used once.
///
/// What is said of files is so as long as nobody else changes them, and where the type tells it: a folder of the system can't
/// be looked into by a contract, and tells nothing. A call that fails may have been done, or not.
pub trait Folder {
    /// A file that is open to be read.
    type Reading: Drop;

    /// A file that is being written.
    type Draft: Drop;

    /// Whether folders of this type tell what they hold.
    ghost tells: { Bool };

    /// The plain file at a path, if one is there. At the path of a draft nothing is said.
    ghost files: { Self → List ℕ → Option StoredFile };

    /// What of an open file is still to be read.
    ghost rest: { Self.Reading → List ℕ };

    /// What was written to a draft.
    ghost written: { Self.Draft → List ℕ };

    /// Where a draft lies.
    ghost aside: { Self.Draft → List ℕ };

    /// Whether all that was written to a draft is on disk.
    ghost flushed: { Self.Draft → Bool };

    /// At which paths a loss of power may still leave what lay there before: a name is loose from a call that changes what it
    /// names until its folder is flushed.
    ghost loose: { Self → List ℕ → Type 0 };

    /// The moment that it is: it grows from call to call.
    ghost moment: { Self → ℕ };

    /// What a loss of power may leave at a path, at this moment or a later one up to now, in the midst of a call too. At the
    /// path of a draft nothing is said.
    ghost left: { Self → ℕ → List ℕ → Option StoredFile → Type 0 };

    /// What lies at a path, if anything does: a link itself, and not what it leads to. Where that is no folder, no name beneath
    /// it is loose.
    fn look(&self, path: &str) -> Result<Option<Seen>, Trouble>
        ensures seen { IsTrue tells → IfOk result (IsSeen (files self.now path.now)) }
        ensures loose { IsTrue tells → IfOk result (LooseIn (loose self.now) path.now) };

    /// The plain file at a path, if one is there: what else lies there, or is no folder on the way, is a fault. Beneath a
    /// plain file nothing lies.
    fn file(&self, path: &str) -> Result<Option<Seen>, Trouble>
        ensures { IsTrue tells → IfOk result (IsFileSeen (files self.now path.now)) };

    /// Opens the plain file that was seen at a path, to be read.
    fn open(&self, path: &str, seen: &Seen) -> Result<Self::Reading, Trouble>
        ensures { IsTrue tells
            → IfOk result (λ file. HasBytes (rest file) (files self.now path.now)) };

    /// Reads on in a file: some bytes, and none only at its end. How long the file is isn't looked at.
    fn read(&self, file: &mut Self::Reading, piece: &mut [u8]) -> Result<usize, Trouble>
        ensures within { IfOk result (λ count. count ≤ length piece.old) }
        ensures read { IsTrue tells
            → IfOk result (λ count. ReadsOn (length piece.old) count piece.new (rest file.old)
            (rest file.new)) }
        ensures unmeasured { IsTrue tells → IfErr result (λ trouble. trouble.cause ≢ Cause.TooLong) };

    /// The names in a folder, or none where no folder is. Some may be told that are no longer there.
    fn list(&self, alloc: Global, path: &str) -> Result<Option<Vec<String>>, FileFault>
        ensures names { IsTrue tells
            → IfOk result (λ found. MatchOption found (HoldsNone (files self.now) path.now)
            (λ names. TellsNames (files self.now) path.now (map string_bytes names.items))) }
        ensures loose { IsTrue tells
            → IfOk result (λ found. MatchOption found (NoneLoose (loose self.now) path.now)
            (λ names. TellsLoose (loose self.now) path.now (map string_bytes names.items))) };

    /// Makes an empty draft at a path, where nothing is. Where there is no folder for it, the cause is `Unreached`.
    fn create(&mut self, path: String) -> Result<Option<Self::Draft>, Trouble>
        ensures draft { IsTrue tells
            → IfOk result (λ made. IfSome made (λ draft. (aside draft ≡ string_bytes path)
            × (written draft ≡ []))) }
        ensures files { IsTrue tells → SameBut (string_bytes path) (files self.old)
            (files self.new) }
        ensures loose { IsTrue tells → LooserAt (string_bytes path) (loose self.old)
            (loose self.new) }
        ensures left { IsTrue tells → Leaves (IsKeptBut (string_bytes path) (files self.old))
            (left self.old) (left self.new) };

    /// Writes on in a draft.
    fn write(&mut self, draft: &mut Self::Draft, bytes: &[u8]) -> Result<(), Trouble>
        ensures written { IsTrue tells
            → OnOk result (written draft.new ≡ written draft.old ++ bytes.now) }
        ensures aside { IsTrue tells → aside draft.new ≡ aside draft.old }
        ensures files { IsTrue tells → SameBut (aside draft.old) (files self.old) (files self.new) }
        ensures loose { IsTrue tells → NoLooser (loose self.old) (loose self.new) }
        ensures left { IsTrue tells → Leaves (IsKeptBut (aside draft.old) (files self.old))
            (left self.old) (left self.new) };

    /// Flushes a draft to disk.
    fn flush(&mut self, draft: &mut Self::Draft) -> Result<(), Trouble>
        ensures flushed { IsTrue tells → OnOk result (IsTrue (flushed draft.new)) }
        ensures written { IsTrue tells → written draft.new ≡ written draft.old }
        ensures aside { IsTrue tells → aside draft.new ≡ aside draft.old }
        ensures files { IsTrue tells → SameBut (aside draft.old) (files self.old) (files self.new) }
        ensures loose { IsTrue tells → NoLooser (loose self.old) (loose self.new) }
        ensures left { IsTrue tells → Leaves (IsKeptBut (aside draft.old) (files self.old))
            (left self.old) (left self.new) };

    /// Moves a draft to a path where nothing is, and tells whether it did. The draft is gone then.
    fn place_new(&mut self, draft: Self::Draft, path: &str) -> Result<bool, Trouble>
        requires { IsTrue tells → IsTrue (flushed draft) }
        ensures loose { IsTrue tells → LoosensNew path.now (aside draft) (loose self.old)
            (loose self.new) result }
        ensures placed { IsTrue tells → PlacesNew (written draft) (files self.old path.now)
            (files self.new path.now) result }
        ensures files { IsTrue tells → SameButTwo path.now (aside draft) (files self.old)
            (files self.new) }
        ensures left { IsTrue tells
            → Leaves
            (IsPlaced path.now (aside draft) (IsNew (written draft) (files self.old path.now))
            (files self.old)) (left self.old) (left self.new) };

    /// Moves a draft to a path, over the plain file there. The draft is gone then.
    fn place_over(&mut self, draft: Self::Draft, path: &str) -> Result<(), Trouble>
        requires { IsTrue tells → IsTrue (flushed draft) }
        ensures loose { IsTrue tells → LooserAtTwo path.now (aside draft) (loose self.old)
            (loose self.new) }
        ensures placed { IsTrue tells → PlacesOver (written draft) (files self.old path.now)
            (files self.new path.now) result }
        ensures files { IsTrue tells → SameButTwo path.now (aside draft) (files self.old)
            (files self.new) }
        ensures left { IsTrue tells
            → Leaves (IsPlaced path.now (aside draft) (HasBytes (written draft)) (files self.old))
            (left self.old) (left self.new) };

    /// Removes a draft, if that can be done.
    fn discard(&mut self, draft: Self::Draft)
        ensures files { IsTrue tells → SameBut (aside draft) (files self.old) (files self.new) }
        ensures loose { IsTrue tells → LooserAt (aside draft) (loose self.old) (loose self.new) }
        ensures left { IsTrue tells → Leaves (IsKeptBut (aside draft) (files self.old))
            (left self.old) (left self.new) };

    /// Removes the plain file at a path, and tells whether one was there.
    fn remove(&mut self, path: &str) -> Result<bool, Trouble>
        ensures removed { IsTrue tells → Removes (files self.old path.now) (files self.new path.now)
            result }
        ensures files { IsTrue tells → SameBut path.now (files self.old) (files self.new) }
        ensures loose { IsTrue tells → LoosensGone path.now (loose self.old) (loose self.new)
            result }
        ensures left { IsTrue tells → Leaves (IsChanged path.now (λ f. f ≡ None) (files self.old))
            (left self.old) (left self.new) };

    /// Makes a folder where nothing is.
    fn make_folder(&mut self, path: &str) -> Result<(), Trouble>
        ensures files { IsTrue tells → (p : List ℕ) → files self.new p ≡ files self.old p }
        ensures loose { IsTrue tells → LooserAt path.now (loose self.old) (loose self.new) }
        ensures left { IsTrue tells → Leaves (IsKept (files self.old)) (left self.old)
            (left self.new) };

    /// Flushes to disk which files a folder holds that was seen at a path.
    fn flush_folder(&mut self, path: &str, seen: &Seen) -> Result<(), Trouble>
        ensures files { IsTrue tells → (p : List ℕ) → files self.new p ≡ files self.old p }
        ensures loose { IsTrue tells → NoLooser (loose self.old) (loose self.new) }
        ensures firm { IsTrue tells
            → OnOk result (Firms path.now (loose self.old) (loose self.new)) }
        ensures left { IsTrue tells → Leaves (IsKept (files self.old)) (left self.old)
            (left self.new) };

    /// Flushes to disk which files and folders the folder at a path holds, wherever the path leads.
    fn flush_root(&mut self, path: &str) -> Result<(), Trouble>
        ensures files { IsTrue tells → (p : List ℕ) → files self.new p ≡ files self.old p }
        ensures loose { IsTrue tells → NoLooser (loose self.old) (loose self.new) }
        ensures firm { IsTrue tells
            → OnOk result (Firms path.now (loose self.old) (loose self.new)) }
        ensures left { IsTrue tells → Leaves (IsKept (files self.old)) (left self.old)
            (left self.new) };

    /// A loss of power now leaves what lies there, but for loose names.
    ghost keeps: { (s : Self) (p : List ℕ) (f : Option StoredFile) → IsTrue Self.tells → (Self.loose s p → ⊥) → Self.left s (Self.moment s) p f → f ≡ Self.files s p };
}
