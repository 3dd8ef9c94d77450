//! What `ice_show` tells of ids, names, paths and files; with the words of its cases.
//!
//! A function that begins with `tell` gives the answer to one kind of cases: from the bytes of a file or a text, or from words.
//! The first fault of a file or of a text that is read is an answer, and no error. `NoAnswer::Words` is the error where words
//! aren't those of the kind, and `NoAnswer::NoMemory` where memory ran out. The README of `ice_show` has the kinds.
#![tactic(auto)]

mod answer_parts;
mod files;
mod manifests;
mod props;
mod snapshots;
mod texts;
mod words;

pub use answer_parts::{fault_told, push_bytes, push_index, push_names};
pub use files::{push_lists, tell_header, tell_header_of, tell_log, tell_log_again};
pub use manifests::{tell_held, tell_manifest, tell_manifest_again};
pub use props::{props_of, push_props, tell_properties};
pub use snapshots::{tell_initial, tell_snapshot, tell_snapshot_again};
pub use texts::{
    index_of, name_of, path_of, tell_draw, tell_draw_at, tell_draw_stream, tell_id, tell_id_of,
    tell_indices, tell_key, tell_keys, tell_name, tell_names, tell_node_id, tell_path, tell_paths,
    tell_ref, tell_ref_of,
};
pub use words::{
    NoAnswer, first_word, number_of, numbers_of, or_no_memory, or_words, parted, said,
    small_number_of, text_of, two_words,
};
