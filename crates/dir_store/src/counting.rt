//! The count of operations.

ghost use Rattle.std.specs.Prelude.{◌≡◌, IsTrue, length};
ghost use Rattle.dir_store.specs.Store.{view_of, operations_of};

use crate::store::FolderStore;
use folder::Folder;
use ice_base::Clock;
use object_store::CountingStore;

impl<F: Folder, C: Clock> CountingStore for FolderStore<F, C> {
    fn operations(&self) -> u64
        ensures told { IsTrue (view_of self.now).caller.tells
            → result ≡ length (view_of self.now).seen }
        ensures made { result ≡ operations_of self.now }
    {
        FolderStore::operations(self)
    }
}
