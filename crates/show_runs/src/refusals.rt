//! What refusals are called in a report.

use crate::printed_texts::refusal_text;
use crate::store_keys::{id_of, key_of};
use flat_tables::Kind;
use ice_items::Items;
use ref_file::RefFault;
use repo_objects::Bad;
use show_files::{NoAnswer, first_word, index_of, number_of, path_of};
use snapshot_file::PropFault;
use std::alloc::Global;
use store_api::{Refusal, RegionFault, Version};
use zarr_meta::MetaFault;
use zarr_path::Index;
use zarr_tree::{Case, Conflict, EditFault, Frozen};

/// The version that a word says; `-` is an absent branch.
fn found_of(word: &str) -> Result<Option<Version>, NoAnswer> {
    if word == "-" {
        return Ok(None);
    }
    Ok(Some(Version(number_of(word)?)))
}

/// The part of metadata of this name in the code.
fn frozen_of(word: &str) -> Result<Frozen, NoAnswer> {
    match word {
        "NodeType" => Ok(Frozen::NodeType),
        "Rank" => Ok(Frozen::Rank),
        "DataType" => Ok(Frozen::DataType),
        "ChunkGrid" => Ok(Frozen::ChunkGrid),
        "Codecs" => Ok(Frozen::Codecs),
        _ => Err(NoAnswer::Words),
    }
}

/// The fault of a property of this name in the code.
fn prop_of(word: &str) -> Result<PropFault, NoAnswer> {
    match word {
        "Name" => Ok(PropFault::Name),
        "Value" => Ok(PropFault::Value),
        "Twice" => Ok(PropFault::Twice),
        "Many" => Ok(PropFault::Many),
        _ => Err(NoAnswer::Words),
    }
}

/// The kind of files of this name in the code.
fn kind_of(word: &str) -> Result<Kind, NoAnswer> {
    match word {
        "Snapshot" => Ok(Kind::Snapshot),
        "Manifest" => Ok(Kind::Manifest),
        "Log" => Ok(Kind::Log),
        _ => Err(NoAnswer::Words),
    }
}

/// The kind of conflicts of this name in the code.
fn case_of(word: &str) -> Result<Case, NoAnswer> {
    match word {
        "NewNodeConflictsWithExistingNode" => Ok(Case::NewNodeConflictsWithExistingNode),
        "NewNodeInInvalidGroup" => Ok(Case::NewNodeInInvalidGroup),
        "ZarrMetadataDoubleUpdate" => Ok(Case::ZarrMetadataDoubleUpdate),
        "ZarrMetadataUpdateOfDeletedArray" => Ok(Case::ZarrMetadataUpdateOfDeletedArray),
        "ZarrMetadataUpdateOfDeletedGroup" => Ok(Case::ZarrMetadataUpdateOfDeletedGroup),
        _ => later_case_of(word),
    }
}

/// The kind of conflicts of this name in the code, from the sixth on.
fn later_case_of(word: &str) -> Result<Case, NoAnswer> {
    match word {
        "ChunkDoubleUpdate" => Ok(Case::ChunkDoubleUpdate),
        "ChunksUpdatedInDeletedArray" => Ok(Case::ChunksUpdatedInDeletedArray),
        "ChunksUpdatedInUpdatedArray" => Ok(Case::ChunksUpdatedInUpdatedArray),
        "DeleteOfUpdatedArray" => Ok(Case::DeleteOfUpdatedArray),
        "DeleteOfUpdatedGroup" => Ok(Case::DeleteOfUpdatedGroup),
        _ => Err(NoAnswer::Words),
    }
}

/// The index of a conflict's chunk, if it has one.
fn some_index_of(alloc: Global, word: Option<&str>) -> Result<Option<Index>, NoAnswer> {
    match word {
        Some(word) => Ok(Some(index_of(alloc, word)?)),
        None => Ok(None),
    }
}

/// A path, and what stands behind a `=`.
fn place_of(text: &str) -> (&str, Option<&str>) {
    match text.split_once('=') {
        Some((path, index)) => (path, Some(index)),
        None => (text, None),
    }
}

/// The conflict that a word like `ChunkDoubleUpdate=/x=0,1` says.
fn conflict_of(alloc: Global, word: &str) -> Result<Conflict, NoAnswer> {
    let (case, place) = word.split_once('=').ok_or(NoAnswer::Words)?;
    let (path, index) = place_of(place);
    Ok(Conflict {
        case: case_of(case)?,
        path: path_of(alloc, path)?,
        index: some_index_of(alloc, index)?,
    })
}

/// The conflicts of words.
fn conflicts_of(alloc: Global, words: &str) -> Result<Items<Conflict>, NoAnswer> {
    let mut conflicts = Items::new(alloc);
    for word in words.split(' ') {
        conflicts.push(conflict_of(alloc, word)?)?;
    }
    Ok(conflicts)
}

/// The conflicts with the commit of this id that stay.
fn left_of(alloc: Global, id: &str, words: &str) -> Result<Refusal, NoAnswer> {
    let at = id_of(id)?;
    let conflicts = conflicts_of(alloc, words)?;
    Ok(Refusal::Left { at, conflicts })
}

/// The refusal of a call at a node, of this name in the code.
fn node_refusal_of(name: &str) -> Result<Refusal, NoAnswer> {
    match name {
        "NoNode" => Ok(Refusal::Edit(EditFault::NoNode)),
        "NodeExists" => Ok(Refusal::Edit(EditFault::NodeExists)),
        "NoParent" => Ok(Refusal::Edit(EditFault::NoParent)),
        "OutOfGrid" => Ok(Refusal::Edit(EditFault::OutOfGrid)),
        "NotArray" => Ok(Refusal::Edit(EditFault::NotArray)),
        "ReadOnly" => Ok(Refusal::ReadOnly),
        "Full" => Ok(Refusal::Edit(EditFault::Full)),
        "BadKey" => Ok(Refusal::BadKey),
        _ => ref_refusal_of(name),
    }
}

/// The refusal of a call on refs, or of a commit, of this name in the code.
fn ref_refusal_of(name: &str) -> Result<Refusal, NoAnswer> {
    match name {
        "NoRef" => Ok(Refusal::NoRef),
        "NoSnapshot" => Ok(Refusal::NoSnapshot),
        "TagGone" => Ok(Refusal::TagDropped),
        "MainKept" => Ok(Refusal::MainKept),
        "Unnamed" => Ok(Refusal::Unnamed),
        "OutOfShape" => Ok(Refusal::Region(RegionFault::OutOfShape)),
        "RegionLarge" => Ok(Refusal::Region(RegionFault::Large)),
        "TooDeep" => Ok(Refusal::TooDeep),
        "NothingToCommit" => Ok(Refusal::NothingToCommit),
        _ => want_of(name),
    }
}

/// The refusal for want of something, of this name in the code.
fn want_of(name: &str) -> Result<Refusal, NoAnswer> {
    match name {
        "StoreFault" => Ok(Refusal::StoreFault),
        "TargetFault" => Ok(Refusal::TargetFault),
        "NoMemory" => Ok(Refusal::NoMemory),
        "IdsSpent" => Ok(Refusal::IdsSpent),
        _ => Err(NoAnswer::Words),
    }
}

/// The refusal of this name in the code, with the key of an object behind it.
fn key_refusal_of(alloc: Global, name: &str, key: &str) -> Result<Refusal, NoAnswer> {
    let key = key_of(alloc, key)?;
    match name {
        "Missing" => Ok(Refusal::Missing(key)),
        "IdTaken" => Ok(Refusal::IdTaken(key)),
        "Differs" => Ok(Refusal::Differs(key)),
        _ => Ok(Refusal::BadFile(key, Bad::Ref(RefFault::Json))),
    }
}

/// The refusal of this name in the code, with two words behind it.
fn pair_refusal_of(name: &str, first: &str, second: &str) -> Result<Refusal, NoAnswer> {
    let old = number_of(first)?;
    match name {
        "ChunkLength" => Ok(Refusal::Edit(EditFault::ChunkLength {
            want: old,
            got: number_of(second)?,
        })),
        "CellCount" => Ok(Refusal::Region(RegionFault::CellCount {
            want: old,
            got: number_of(second)?,
        })),
        _ => Ok(Refusal::LostRace {
            old: Version(old),
            found: found_of(second)?,
        }),
    }
}

/// The refusal of this name in the code, with one number or word behind it.
fn word_refusal_of(name: &str, word: &str) -> Result<Refusal, NoAnswer> {
    match name {
        "FrozenField" => Ok(Refusal::Edit(EditFault::FrozenField(frozen_of(word)?))),
        "TooLarge" => Ok(Refusal::TooLarge(kind_of(word)?)),
        "RefExists" => Ok(Refusal::RefExists(Version(number_of(word)?))),
        "Moved" => Ok(Refusal::Moved {
            found: found_of(word)?,
        }),
        "CutoffAhead" => Ok(Refusal::CutoffAhead {
            now: number_of(word)?,
        }),
        "CellRange" => Ok(Refusal::Region(RegionFault::CellRange {
            at: number_of(word)?,
        })),
        "Unsound" => Ok(Refusal::Unsound(number_of(word)?)),
        "BadProp" => Ok(Refusal::BadProp(prop_of(word)?)),
        _ => id_refusal_of(name, word),
    }
}

/// The refusal of this name in the code, with an id behind it, or with nothing.
fn id_refusal_of(name: &str, word: &str) -> Result<Refusal, NoAnswer> {
    match name {
        "InDoubt" => Ok(Refusal::InDoubt {
            snapshot: id_of(word)?,
        }),
        "NotAncestor" => Ok(Refusal::NotAncestor { head: id_of(word)? }),
        "BadMeta" => Ok(Refusal::BadMeta(MetaFault::NodeType)),
        _ => node_refusal_of(name),
    }
}

/// The refusal of this name in the code, with what it says behind it.
pub fn refusal_of(alloc: Global, text: &str) -> Result<Refusal, NoAnswer> {
    let (name, rest) = first_word(text);
    let (first, more) = first_word(rest);
    match name {
        "Missing" | "IdTaken" | "BadFile" | "Differs" => key_refusal_of(alloc, name, rest),
        "ChunkLength" | "CellCount" | "Conflict" => pair_refusal_of(
            name,
            first,
            first_word(more).0,
        ),
        "Left" => left_of(alloc, first, more),
        _ => word_refusal_of(name, first),
    }
}

/// What came of something: `-`, or a refusal.
pub fn result_of(alloc: Global, words: &str) -> Result<Result<(), Refusal>, NoAnswer> {
    if words == "-" {
        return Ok(Ok(()));
    }
    refusal_of(alloc, words).map(Err)
}

/// What a report calls a refusal; it is let go.
fn refusal_told(alloc: Global, why: Refusal) -> Result<String, NoAnswer> {
    let text = refusal_text(alloc, &why);
    drop(why);
    match String::from_utf8(text?) {
        Ok(text) => Ok(text),
        Err(_) => Err(NoAnswer::Words),
    }
}

/// What a report calls a refusal.
pub fn tell_refusal(alloc: Global, text: &str) -> Result<String, NoAnswer> {
    refusal_told(alloc, refusal_of(alloc, text)?)
}
