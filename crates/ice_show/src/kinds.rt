//! The kinds of cases.

use crate::ref_calls::tell_refs;
use crate::storing::tell_store;
use show_files::{
    NoAnswer, tell_draw, tell_draw_at, tell_draw_stream, tell_header, tell_header_of, tell_held,
    tell_id, tell_id_of, tell_indices, tell_initial, tell_key, tell_keys, tell_log, tell_log_again,
    tell_manifest, tell_manifest_again, tell_name, tell_names, tell_node_id, tell_path, tell_paths,
    tell_properties, tell_ref, tell_ref_of, tell_snapshot, tell_snapshot_again, text_of,
};
use show_runs::{
    tell_byte_list, tell_input, tell_object, tell_output, tell_refusal, tell_report, tell_same,
    tell_script,
};
use show_trees::{
    tell_changes, tell_conflicts, tell_grid, tell_in_grid, tell_json, tell_known_log,
    tell_known_ref, tell_loaded, tell_member, tell_meta, tell_meta_text, tell_number, tell_plain,
    tell_solved,
};
use std::alloc::Global;

/// What is told of the bytes of a case of this kind.
pub fn tell(alloc: Global, kind: &str, bytes: &[u8]) -> Result<String, NoAnswer> {
    match kind {
        "id" => tell_id(alloc, bytes),
        "node_id" => tell_node_id(alloc, bytes),
        "ref" => tell_ref(alloc, bytes),
        "json" => tell_json(alloc, bytes),
        "number" => tell_number(alloc, bytes),
        "member_a" => tell_member(alloc, bytes),
        "meta" => tell_meta(alloc, bytes),
        "meta_text" => tell_meta_text(alloc, bytes),
        _ => tell_file(alloc, kind, bytes),
    }
}

/// What is told of a file.
fn tell_file(alloc: Global, kind: &str, bytes: &[u8]) -> Result<String, NoAnswer> {
    match kind {
        "header" => tell_header(alloc, bytes),
        "snapshot" => tell_snapshot(alloc, bytes),
        "snapshot_again" => tell_snapshot_again(alloc, bytes),
        "manifest" => tell_manifest(alloc, bytes),
        "manifest_again" => tell_manifest_again(alloc, bytes),
        "log" => tell_log(alloc, bytes),
        "log_again" => tell_log_again(alloc, bytes),
        _ => tell_known(alloc, kind, bytes),
    }
}

/// What is told of a file that is read as an object or in place, and of a script.
fn tell_known(alloc: Global, kind: &str, bytes: &[u8]) -> Result<String, NoAnswer> {
    match kind {
        "loaded" => tell_loaded(alloc, bytes),
        "known_log" => tell_known_log(alloc, bytes),
        "known_ref" => tell_known_ref(alloc, bytes),
        "held_manifest" => tell_held(alloc, bytes),
        "script" => tell_script(alloc, bytes),
        _ => tell_text(alloc, kind, text_of(bytes)?),
    }
}

/// What is told of a text.
fn tell_text(alloc: Global, kind: &str, text: &str) -> Result<String, NoAnswer> {
    match kind {
        "id_of" => tell_id_of(alloc, text),
        "draw" => tell_draw(alloc, text),
        "draw_at" => tell_draw_at(alloc, text),
        "draw_stream" => tell_draw_stream(alloc, text),
        "name" => tell_name(alloc, text),
        "names" => tell_names(alloc, text),
        _ => tell_place(alloc, kind, text),
    }
}

/// What is told of a path, a key or an index.
fn tell_place(alloc: Global, kind: &str, text: &str) -> Result<String, NoAnswer> {
    match kind {
        "path" => tell_path(alloc, text),
        "paths" => tell_paths(alloc, text),
        "key" => tell_key(alloc, text),
        "keys" => tell_keys(alloc, text),
        "indices" => tell_indices(alloc, text),
        "grid" => tell_grid(alloc, text),
        "in_grid" => tell_in_grid(alloc, text),
        _ => tell_written(alloc, kind, text),
    }
}

/// What is told of what is written for words.
fn tell_written(alloc: Global, kind: &str, text: &str) -> Result<String, NoAnswer> {
    match kind {
        "ref_of" => tell_ref_of(alloc, text),
        "header_of" => tell_header_of(alloc, text),
        "initial_snapshot" => tell_initial(alloc),
        "properties" => tell_properties(alloc, text),
        "plain_meta" => tell_plain(alloc, text),
        _ => tell_ends(alloc, kind, text),
    }
}

/// What is told of ends of byte streams, of what stores and reports call things, and of reports.
fn tell_ends(alloc: Global, kind: &str, text: &str) -> Result<String, NoAnswer> {
    match kind {
        "input" => tell_input(alloc, text),
        "output" => tell_output(alloc, text),
        "byte_list" => tell_byte_list(alloc, text),
        "object" => tell_object(alloc, text),
        "same_object" => tell_same(alloc, text),
        "refusal" => tell_refusal(alloc, text),
        "report" => tell_report(alloc, text),
        _ => tell_calls(alloc, kind, text),
    }
}

/// What is told of calls.
fn tell_calls(alloc: Global, kind: &str, text: &str) -> Result<String, NoAnswer> {
    match kind {
        "changes" => tell_changes(alloc, text),
        "conflicts" => tell_conflicts(alloc, text),
        "solved" => tell_solved(alloc, text),
        "store" => tell_store(alloc, text),
        "refs" => tell_refs(alloc, text),
        _ => Err(NoAnswer::Words),
    }
}
