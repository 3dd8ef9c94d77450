//! What heads and body lines say.

use conflicts::Policy;
use ice_base::{Bytes, RefName, Text};
use ice_items::Items;
use repo_read::At;
use script_values::Boxed;
use zarr_path::{Index, Path};

/// A box of cells of the array at a path.
#[derive(Drop)]
pub struct CellBox {
    /// The array's path.
    pub path: Path,
    /// Where the box begins along each dimension.
    pub from: Items<u64>,
    /// Where it ends; that isn't in it.
    pub to: Items<u64>,
}

/// What a line calls that changes the tree of its task's session.
#[derive(Drop)]
pub enum EditCall {
    /// Adds a group.
    Group {
        /// Where it is added.
        path: Path,
    },
    /// Adds an array.
    Array {
        /// Where it is added.
        path: Boxed<Path>,
        /// Its metadata: the plain text of the type, shape, chunks and fill value that the line tells.
        text: Boxed<Text>,
    },
    /// Adds a node of given metadata.
    Make {
        /// Where it is added.
        path: Boxed<Path>,
        /// Its metadata, any UTF-8.
        text: Boxed<Text>,
    },
    /// Gives a node other metadata.
    Meta {
        /// The node's path.
        path: Boxed<Path>,
        /// Its metadata, any UTF-8.
        text: Boxed<Text>,
    },
    /// Deletes a node and all beneath it.
    Drop {
        /// The node's path.
        path: Path,
    },
    /// Writes a chunk of an array.
    Set {
        /// The array's path.
        path: Boxed<Path>,
        /// The chunk's place in the grid.
        index: Boxed<Index>,
        /// The chunk's bytes.
        bytes: Boxed<Bytes>,
    },
    /// Writes a chunk of an array, all of whose bytes are the same.
    Fill {
        /// The array's path.
        path: Boxed<Path>,
        /// The chunk's place in the grid.
        index: Boxed<Index>,
        /// Each of its bytes.
        byte: u8,
    },
    /// Erases a chunk of an array.
    Unset {
        /// The array's path.
        path: Boxed<Path>,
        /// The chunk's place in the grid.
        index: Boxed<Index>,
    },
    /// Writes the numbers of a box of cells.
    Put {
        /// The box.
        place: Boxed<CellBox>,
        /// The numbers of its cells, in C order.
        numbers: Boxed<Items<i128>>,
    },
    /// Writes the value of a key of the Zarr store.
    KeySet {
        /// The key, any word.
        key: Boxed<Text>,
        /// The value.
        bytes: Boxed<Bytes>,
    },
    /// Erases a key of the Zarr store.
    KeyErase {
        /// The key, any word.
        key: Text,
    },
}

/// What a line calls that shows something and changes nothing.
#[derive(Drop)]
pub enum ReadCall {
    /// Lists the nodes strictly beneath a path.
    List {
        /// The path.
        path: Path,
    },
    /// Shows the metadata of a node.
    Get {
        /// The node's path.
        path: Path,
    },
    /// Shows a chunk of an array.
    Chunk {
        /// The array's path.
        path: Boxed<Path>,
        /// The chunk's place in the grid.
        index: Boxed<Index>,
    },
    /// Shows the numbers of a box of cells.
    Cells {
        /// The box.
        place: Boxed<CellBox>,
    },
    /// Shows the value of a key of the Zarr store.
    KeyGet {
        /// The key, any word.
        key: Text,
    },
}

/// What a line calls that makes, moves or drops a ref, or reads a log. It needs no session.
#[derive(Drop)]
pub enum RefCall {
    /// Makes a branch.
    Branch {
        /// Its name.
        name: RefName,
        /// What it is to name.
        at: At,
    },
    /// Sets a branch to another snapshot.
    Reset {
        /// The branch.
        name: RefName,
        /// What it is to name.
        at: At,
    },
    /// Drops a branch.
    Unbranch {
        /// The branch.
        name: RefName,
    },
    /// Makes a tag.
    Tag {
        /// Its name.
        name: RefName,
        /// What it is to name.
        at: At,
    },
    /// Drops a tag.
    Untag {
        /// The tag.
        name: RefName,
    },
    /// Shows a snapshot and those before it.
    Log {
        /// Where it begins.
        at: At,
    },
}

/// What a body line calls.
#[derive(Drop)]
pub enum Call {
    /// A change of the session's tree.
    Edit(EditCall),
    /// A look at the session's tree.
    Read(ReadCall),
    /// Commits the changes.
    Commit {
        /// The commit's message, any UTF-8.
        message: Text,
    },
    /// A call on refs.
    Ref(Boxed<RefCall>),
    /// Adds a property to the snapshot that the task commits.
    Prop {
        /// The property's name, any word.
        name: Boxed<Text>,
        /// The property's value, any UTF-8.
        value: Boxed<Text>,
    },
    /// Keeps the session's base by a lease, until the task ends.
    Lease,
}

/// The classes of calls: a head takes all lines of a class, or none.
#[derive(Clone, Copy, Debug, PartialEq, Eq)]
pub enum Class {
    /// Changes of the tree.
    Edit,
    /// Looks at the tree, and leases of the session's base.
    Read,
    /// Commits.
    Commit,
    /// Calls on refs.
    Ref,
}

/// What a task opens a session for.
#[derive(Drop)]
pub enum Access {
    /// To edit a branch, and to commit on it.
    Write {
        /// The branch.
        branch: RefName,
        /// How often its commit may be carried over those of others, at most 9 times.
        tries: u8,
        /// How conflicts with them are solved.
        policy: Policy,
    },
    /// To read the tree at a branch, a tag or a snapshot.
    Read {
        /// What names the snapshot.
        at: At,
    },
}

/// How a task begins.
#[derive(Drop)]
pub enum Head {
    /// The task opens a session.
    Session(Access),
    /// The task calls on refs, and opens no session.
    Refs,
    /// The task collects: it removes what no ref reaches and is older than the cutoff.
    Collect {
        /// The cutoff, in microseconds since 1970.
        cutoff: u64,
    },
    /// The task expires: it takes snapshots older than the cutoff out of the histories of refs, and drops refs that name one.
    Expire {
        /// The cutoff, in microseconds since 1970.
        cutoff: u64,
        /// Whether branches are dropped, but `main`.
        drop_branches: bool,
        /// Whether tags are dropped.
        drop_tags: bool,
    },
    /// The task checks: it reads all that refs reach, and tells what is wrong.
    Check,
}
