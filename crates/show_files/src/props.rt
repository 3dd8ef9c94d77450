//! Properties of snapshots.

use crate::answer_parts::fault_told;
use crate::snapshots::tell_snapshot;
use crate::words::{NoAnswer, parted};
use flat_tables::WriteFault;
use snapshot_file::{PropFault, Props};
use std::alloc::{AllocError, Global};

/// Appends properties, a line each. The only error is want of memory, behind which some of them may stand there.
pub fn push_props(told: &mut String, props: &Props) -> Result<(), AllocError> {
    for at in 0..props.len() {
        let (name, value) = props.row(at);
        write!(told, "\n  property {name} '{value}'")?;
    }
    Ok(())
}

/// Adds a property like `unit=kelvin`.
fn add_word(props: &mut Props, word: &str) -> Result<(), NoAnswer> {
    let (name, value) = parted(word, "=");
    match props.add(name, value) {
        Ok(()) => Ok(()),
        Err(PropFault::NoMemory) => Err(NoAnswer::NoMemory),
        Err(_) => Err(NoAnswer::Words),
    }
}

/// The properties of words like `unit=kelvin+author=ann`; no words are none. `Words` where one may not be added.
pub fn props_of(alloc: Global, words: &str) -> Result<Props, NoAnswer> {
    let mut props = Props::new(alloc);
    if !words.is_empty() {
        for word in words.split('+') {
            add_word(&mut props, word)?;
        }
    }
    Ok(props)
}

/// Adds the property of line number `at`, and appends why it isn't added.
fn add_line(
    refused: &mut String,
    props: &mut Props,
    at: usize,
    line: &str,
) -> Result<(), NoAnswer> {
    let (name, value) = parted(line, "=");
    match props.add(name, value) {
        Ok(()) => Ok(()),
        Err(PropFault::NoMemory) => Err(NoAnswer::NoMemory),
        Err(fault) => Ok(write!(refused, "\n  refused {at} {fault:?}")?),
    }
}

/// The file of the initial snapshot, but with these properties.
fn file_with(alloc: Global, props: Props) -> Result<Vec<u8>, WriteFault> {
    let mut snapshot = snapshot_file::initial(alloc)?;
    snapshot.props = props;
    let written = snapshot_file::write(alloc, &snapshot);
    drop(snapshot);
    written
}

/// What the file of the initial snapshot says with properties, a line each as `NAME=VALUE`, and which of them were refused.
pub fn tell_properties(alloc: Global, text: &str) -> Result<String, NoAnswer> {
    let mut refused = String::new(alloc);
    let mut props = Props::new(alloc);
    for (at, line) in text.split('\n').enumerate() {
        add_line(&mut refused, &mut props, at, line)?;
    }
    match file_with(alloc, props) {
        Ok(file) => {
            let mut told = tell_snapshot(alloc, file.as_slice())?;
            told.push_str(refused.as_str())?;
            Ok(told)
        }
        Err(fault) => fault_told(alloc, fault),
    }
}
