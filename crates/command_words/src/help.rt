//! What the program says of itself.

ghost use Rattle.std.specs.Prelude.{◌≡◌};
ghost use Rattle.command_words.specs.Help.{version_line};

use crate::reading::Topic;
use std::fmt;

/// The line that `--version` prints.
pub fn version() -> &'static str
    ensures { result.now ≡ version_line }
{
    "icerepo 0.1.0\n"
}

/// The help, with a line feed behind each line.
impl fmt::Display for Topic {
    ghost use Rattle.std.specs.Prelude.{Some};
    ghost use Rattle.command_words.specs.Help.{help_of};

    ghost output = { λ topic. Some (help_of topic) };

    fn fmt<W: fmt::Write>(&self, f: &mut fmt::Formatter<W>) -> fmt::Result {
        match self {
            Topic::Program => write!(f, "{PROGRAM}{STATUSES}{PLAY_EXAMPLE}"),
            Topic::Play => write!(f, "{PLAY}{STATUSES}{PLAY_EXAMPLE}"),
            Topic::Cells => write!(f, "{CELLS}{STATUSES}{CELLS_EXAMPLE}"),
            Topic::Grow => write!(f, "{GROW}{STATUSES}{GROW_EXAMPLE}"),
            Topic::Check => write!(f, "{CHECK}{STATUSES}{CHECK_EXAMPLE}"),
            Topic::Mirror => write!(f, "{MIRROR}{STATUSES}{MIRROR_EXAMPLE}"),
        }
    }
}

/// What the program is, and its commands.
const PROGRAM: &str = "\
icerepo keeps versioned trees of Zarr groups and arrays in an object store.\n\
\n\
icerepo play [--dir PATH]                        plays the script of standard input, and prints its report\n\
icerepo cells BRANCH PATH FROM TO [--dir PATH]   prints the numbers of a box of cells of an array\n\
icerepo grow N [--dir PATH]                      plays a script that is made from N, and prints one line\n\
icerepo check [--dir PATH] [--progress]          checks all that the refs of a repository reach\n\
icerepo mirror FROM TO                           copies a repository into a second directory\n\
icerepo COMMAND --help                           says more of a command\n\
icerepo --version                                prints the version; -V is short for it, -h for --help\n\
\n\
Without --dir the repository is in memory, and is gone at the end. With it, it stays in that directory.\n\
\n";

/// What `play` reads and prints.
const PLAY: &str = "\
icerepo play [--dir PATH]\n\
\n\
Reads a script from standard input and plays it, over a repository in memory, or in the directory PATH.\n\
A line `put PATH FROM TO CELLS` writes the numbers of a box of cells, and `cells PATH FROM TO` shows them.\n\
A line `prop NAME VALUE` before a commit gives its snapshot a text under a name, which `log` shows.\n\
A line `lease` keeps what its task reads from collections, until the task ends.\n\
A task `task NAME expire @2026-01-01T00:00:00Z keep` takes older snapshots out of the histories of refs.\n\
A task `task NAME collect @2026-01-01T00:00:00Z` removes objects that no ref reaches and that are older.\n\
Prints what each task showed and how it ended, and then the snapshot at which each branch and tag stands.\n\
\n";

/// What `cells` reads and prints.
const CELLS: &str = "\
icerepo cells BRANCH PATH FROM TO [--dir PATH]\n\
\n\
Reads nothing. Prints the numbers that the array PATH has at BRANCH in the box from FROM up to TO, which isn't\n\
in it. FROM and TO have a number for each dimension, with commas between them, and are `-` where it has none.\n\
Plays the script of the two lines `task cells read branch BRANCH` and `cells PATH FROM TO`, over a repository\n\
in memory, where there is no array, or in the directory PATH, and prints its report.\n\
\n";

/// What `grow` reads and prints.
const GROW: &str = "\
icerepo grow N [--dir PATH]\n\
\n\
Reads nothing. Makes a script of one task that lays out an array and N tasks, N from 1 to 60, that each fill\n\
50 of its chunks, and plays it, over a repository in memory, or in the directory PATH. The same N makes the\n\
same script. Prints one line: how many tasks there were, how many committed and were refused, and how many\n\
operations of the store were made.\n\
\n";

/// What `check` reads and prints.
const CHECK: &str = "\
icerepo check [--dir PATH] [--progress]\n\
\n\
Reads nothing. Reads all that the branches and tags of the repository reach, in memory, where there is none, or in\n\
the directory PATH: snapshots, logs, manifests, and the objects with chunks, each once. Changes nothing. Prints a\n\
line for each object that is wrong: `absent`, `bad`, `ring` or `notwell`, and its name; and then `check checked`\n\
with the numbers of snapshots and of objects with chunks, or `check refused 0` and why. That a chunk has as many\n\
bytes as it should is tested; what they are isn't, as no digest of them is kept: a changed byte in a chunk isn't found.\n\
With --progress it says on standard error how many operations it has made, at each thousand.\n\
\n";

/// What `mirror` does and prints.
const MIRROR: &str = "\
icerepo mirror FROM TO\n\
\n\
Reads nothing. Copies the repository in the directory FROM into the directory TO, which must be there: all that its\n\
branches and tags reach, and then the refs, so that each ref in TO names a whole tree at each moment. A mirror that was\n\
cut off, or whose source has gone on, is run again. Nothing in FROM is changed, and nothing in TO removed: refs that\n\
FROM lacks stay, a branch that names another snapshot is put anew, and any other difference is refused. Prints a line\n\
for each ref, `branch NAME ID put` or `kept`, and then `mirrored` with the numbers of snapshots, logs, manifests and\n\
objects with chunks that were put, or `mirror refused` and why.\n\
\n";

/// What the exit statuses mean.
const STATUSES: &str = "\
Exit status:\n\
0  all went well, and all was written\n\
1  a task was refused; the report says which, at which line, and why\n\
2  wrong words; standard error names them, and nothing was done\n\
3  a line of the script was refused; standard error names it, and nothing was done\n\
4  standard input failed; nothing was done\n\
5  standard output failed\n\
6  the store failed\n\
7  there was no memory\n\
8  the directory can't be used\n\
\n";

/// Two calls of `play`.
const PLAY_EXAMPLE: &str = "\
Example:\n\
$ printf 'task a write main 0 fail\\ngroup /\\ncommit first\\n' | icerepo play\n\
a committed 0000008000000000000G\n\
branch main 0000008000000000000G\n\
Without a line `commit` the changes are dropped, and the status is 0 all the same:\n\
$ printf 'task a write main 0 fail\\ngroup /\\n' | icerepo play\n\
a done\n\
branch main 1CECHNKREP0F1RSTCMT0\n";

/// A call of `cells`.
const CELLS_EXAMPLE: &str = "\
Example, over a directory in which `play` wrote four numbers:\n\
$ icerepo cells main /t 0 4 --dir repo\n\
cells 2 cells 1,2,-1,-1\n\
cells done\n\
branch main C6MK83Z0XBWTSG5RXQK0\n";

/// A call of `grow`.
const GROW_EXAMPLE: &str = "\
Example:\n\
$ icerepo grow 1\n\
tasks 2 committed 2 refused 0 events 16\n";

/// A call of `check`.
const CHECK_EXAMPLE: &str = "\
Example:\n\
$ icerepo check\n\
check checked 0 0\n";

/// A call of `mirror`.
const MIRROR_EXAMPLE: &str = "\
Example, over a directory in which `play` wrote four numbers, and an empty one:\n\
$ icerepo mirror repo copy\n\
branch main C6MK83Z0XBWTSG5RXQK0 put\n\
mirrored 2 1 1 0\n";
