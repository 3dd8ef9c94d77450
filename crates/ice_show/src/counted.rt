//! Bytes that are laid many times with numbers that count, as in `10000#0aff{4+44}00`: behind the count of the turns, from
//! 0 on, stand hexadecimal digits and numbers. `{4+44}` is four bytes, the lowest first, of 4 and 44 times the turn's
//! number; `{d4+44}` its decimal digits.

use crate::parts::digits_of;
use show_files::{NoAnswer, small_number_of};
use std::alloc::Global;

/// Appends a number of a turn.
fn push_number(alloc: Global, bytes: &mut Vec<u8>, word: &str, turn: u32) -> Result<(), NoAnswer> {
    let (first, step) = word.split_once('+').ok_or(NoAnswer::Words)?;
    let more = small_number_of(step)?.wrapping_mul(turn);
    if let Some(first) = first.strip_prefix('d') {
        let number = small_number_of(first)?.wrapping_add(more);
        let text = number.to_string(alloc)?;
        return Ok(bytes.extend_from_slice(text.as_bytes())?);
    }
    let number = small_number_of(first)?.wrapping_add(more);
    Ok(bytes.extend_from_slice(&number.to_le_bytes())?)
}

/// Appends what stands in one turn.
fn push_turn(
    alloc: Global,
    bytes: &mut Vec<u8>,
    template: &str,
    turn: u32,
) -> Result<(), NoAnswer> {
    for piece in template.split('{') {
        let digits = match piece.split_once('}') {
            Some((number, digits)) => {
                push_number(alloc, bytes, number, turn)?;
                digits
            }
            None => piece,
        };
        bytes.extend_from_slice(digits_of(alloc, digits)?.as_slice())?;
    }
    Ok(())
}

/// Appends all turns.
pub fn push_turns(
    alloc: Global,
    bytes: &mut Vec<u8>,
    turns: &str,
    template: &str,
) -> Result<(), NoAnswer> {
    for turn in 0..small_number_of(turns)? {
        push_turn(alloc, bytes, template, turn)?;
    }
    Ok(())
}
