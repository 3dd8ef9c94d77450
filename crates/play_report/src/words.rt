//! What stands in lines of many kinds: names, ids, numbers of lines, and words with something behind them.
#![tactic(auto)]

ghost use Rattle.std.specs.Prelude.{◌≡◌, ◌++◌, decimal};
ghost use Rattle.ice_ids.specs.Text.{id12_text};
ghost use Rattle.object_store.specs.Names.{key_name};
ghost use Rattle.drafts.specs.Drafts.{Took};
ghost use Rattle.play_report.specs.Words.{◌space◌};

use drafts::Draft;
use ice_base::{RefName, Sink};
use ice_ids::Id12;
use object_store::Key;
use zarr_path::Path;

/// A text.
pub fn add_text<K: Sink>(out: &mut Draft, to: &mut K, text: &str)
    ensures { Took out.old (K.at to.old) text.now out.new (K.at to.new) }
{
    out.add(to, text.as_bytes());
}

/// The path of a node.
pub fn add_path<K: Sink>(out: &mut Draft, to: &mut K, path: &Path)
    ensures { Took out.old (K.at to.old) path.now out.new (K.at to.new) }
{
    add_text(out, to, path.as_str());
}

/// The name of a branch or a tag.
pub fn add_name<K: Sink>(out: &mut Draft, to: &mut K, name: &RefName)
    ensures { Took out.old (K.at to.old) name.now out.new (K.at to.new) }
{
    add_text(out, to, name.as_str());
}

/// An id of an object.
pub fn add_id<K: Sink>(out: &mut Draft, to: &mut K, id: Id12)
    ensures { Took out.old (K.at to.old) (id12_text id) out.new (K.at to.new) }
{
    out.add(to, &id.text());
}

/// A number of 32 bits, as that of a line of the script.
pub fn add_small<K: Sink>(out: &mut Draft, to: &mut K, number: u32)
    ensures { Took out.old (K.at to.old) (decimal number) out.new (K.at to.new) }
{
    out.add_number(to, u64::from(number));
}

/// The name of an object that is called by its id, in this folder.
fn add_object<K: Sink>(out: &mut Draft, to: &mut K, folder: &str, id: Id12)
    ensures { Took out.old (K.at to.old) (folder.now ++ id12_text id) out.new (K.at to.new) }
{
    add_text(out, to, folder);
    add_id(out, to, id);
}

/// The name of an object that is called by a ref's name, between these texts.
fn add_ref_object<K: Sink>(out: &mut Draft, to: &mut K, before: &str, name: &RefName, behind: &str)
    ensures { Took out.old (K.at to.old) (before.now ++ (name.now ++ behind.now)) out.new
        (K.at to.new) }
{
    add_text(out, to, before);
    add_name(out, to, name);
    add_text(out, to, behind);
}

/// The name of an object.
pub fn add_key<K: Sink>(out: &mut Draft, to: &mut K, key: &Key)
    ensures { Took out.old (K.at to.old) (key_name key.now) out.new (K.at to.new) }
{
    match key {
        Key::Snapshot(id) => add_object(out, to, "snapshots/", *id),
        Key::Manifest(id) => add_object(out, to, "manifests/", *id),
        Key::Txn(id) => add_object(out, to, "transactions/", *id),
        Key::Chunk(id) => add_object(out, to, "chunks/", *id),
        Key::Branch(name) => add_ref_object(out, to, "refs/branch.", name, "/ref.json"),
        Key::Tag(name) => add_ref_object(out, to, "refs/tag.", name, "/ref.json"),
        Key::Tombstone(name) => add_ref_object(out, to, "refs/tag.", name, "/ref.json.deleted"),
        Key::Lease(id) => add_object(out, to, "leases/", *id),
    }
}

/// A word, and a text behind a space.
pub fn add_told_text<K: Sink>(out: &mut Draft, to: &mut K, word: &str, text: &str)
    ensures { Took out.old (K.at to.old) (word.now space text.now) out.new (K.at to.new) }
{
    add_text(out, to, word);
    out.add(to, b" ");
    add_text(out, to, text);
}

/// A word, and a number behind a space.
pub fn add_told_number<K: Sink>(out: &mut Draft, to: &mut K, word: &str, number: u64)
    ensures { Took out.old (K.at to.old) (word.now space decimal number) out.new (K.at to.new) }
{
    add_text(out, to, word);
    out.add(to, b" ");
    out.add_number(to, number);
}

/// A word, and two numbers, each behind a space.
pub fn add_told_numbers<K: Sink>(out: &mut Draft, to: &mut K, word: &str, first: u64, second: u64)
    ensures { Took out.old (K.at to.old) (word.now space decimal first space decimal second) out.new
        (K.at to.new) }
{
    add_text(out, to, word);
    out.add(to, b" ");
    out.add_number(to, first);
    out.add(to, b" ");
    out.add_number(to, second);
}

/// A word, and an id behind a space.
pub fn add_told_id<K: Sink>(out: &mut Draft, to: &mut K, word: &str, id: Id12)
    ensures { Took out.old (K.at to.old) (word.now space id12_text id) out.new (K.at to.new) }
{
    add_text(out, to, word);
    out.add(to, b" ");
    add_id(out, to, id);
}

/// A word, and the name of an object behind a space.
pub fn add_told_key<K: Sink>(out: &mut Draft, to: &mut K, word: &str, key: &Key)
    ensures { Took out.old (K.at to.old) (word.now space key_name key.now) out.new (K.at to.new) }
{
    add_text(out, to, word);
    out.add(to, b" ");
    add_key(out, to, key);
}
