//! What waits to be written.

ghost use Rattle.std.specs.Prelude.{◌≡◌, ◌<◌, ◌-◌, ◌++◌, ◌∷◌, [], ℕ, List, false, min, length, take, drop, decimal, IfOk};
ghost use Rattle.std.specs.Fmt.{signed_decimal};
ghost use Rattle.ice_base.specs.Ends.{OutputAt};
ghost use Rattle.drafts.specs.Drafts.{DraftAt, IsBlank, Took, Wrote};

use ice_base::{Sink, write_whole};
use std::alloc::{AllocError, Global};
use std::marker::Model;

/// How many bytes can wait.
const ROOM: usize = 65_536;

/// A text on its way to a sink: its first bytes are written, and the others wait in a buffer of 65,536 bytes, until it is full.
/// The buffer is taken at first, and nothing else takes memory. Behind a write that failed nothing more is written.
#[derive(Drop)]
pub struct Draft {
    buffer: Vec<u8>,
    filled: usize,
    unwritten: bool,
}

impl Model for Draft {
    ghost use Rattle.std.specs.Prelude.{take, vec_len, ◌≤◌, ◌<◌};
    ghost use Rattle.drafts.specs.Drafts.{DraftAt};

    ghost Value = { DraftAt };

    ghost view = { λ d. record { room = vec_len d.buffer; waiting = take d.filled d.buffer.items; unwritten = d.unwritten } };

    ghost invariant = { λ d. (0 < vec_len d.buffer) × (d.filled ≤ vec_len d.buffer) };
}

/// Copies as many bytes as there are and as fit to the front of `into`, and says how many.
fn copy_front(into: &mut [u8], from: &[u8]) -> usize
    ensures count { result ≡ min (length into.old) (length from.now) }
    ensures into { into.new ≡ take result from.now ++ drop result into.old }
{
    let count = into.len().min(from.len());
    into[..count].copy_from_slice(&from[..count]);
    count
}

/// Writes these bytes; whether not all of them were written.
fn is_unwritten<K: Sink>(to: &mut K, bytes: &[u8]) -> bool
    ensures { Wrote (K.at to.old) (K.at to.new) bytes.now result }
{
    write_whole(to, bytes).is_err()
}

impl Draft {
    /// A draft of which nothing is written yet.
    pub fn new(alloc: Global) -> Result<Draft, AllocError>
        ensures { IfOk result IsBlank }
    {
        Ok(Draft {
            buffer: vec![in alloc; 0u8; ROOM]?,
            filled: 0,
            unwritten: false,
        })
    }

    /// Writes what waits, where no write has failed.
    fn send_all<K: Sink>(&mut self, to: &mut K)
        ensures wrote { Wrote (K.at to.old) (K.at to.new) self.old.waiting self.new.unwritten }
        ensures none { self.new.waiting ≡ [] }
        ensures room { self.new.room ≡ self.old.room }
    {
        self.unwritten = is_unwritten(to, &self.buffer[..self.filled]);
        self.filled = 0;
    }

    /// Writes what waits.
    fn send<K: Sink>(&mut self, to: &mut K)
        ensures took { Took self.old (K.at to.old) [] self.new (K.at to.new) }
        ensures none { self.new.unwritten ≡ false → self.new.waiting ≡ [] }
        ensures room { self.new.room ≡ self.old.room }
    {
        if self.unwritten {
            return;
        }
        self.send_all(to);
    }

    /// Writes what waits if there is no room behind it.
    fn make_room<K: Sink>(&mut self, to: &mut K)
        ensures took { Took self.old (K.at to.old) [] self.new (K.at to.new) }
        ensures room { self.new.unwritten ≡ false → length self.new.waiting < self.new.room }
    {
        if self.filled < self.buffer.len() {
            return;
        }
        self.send(to);
    }

    /// Has as many of these bytes wait as there is room for, and says how many.
    fn keep(&mut self, bytes: &[u8]) -> usize
        ensures count { result ≡ min (self.old.room - length self.old.waiting) (length bytes.now) }
        ensures kept { self.new ≡ record self.old
            { waiting = self.old.waiting ++ take result bytes.now } }
    {
        let count = copy_front(&mut self.buffer[self.filled..], bytes);
        self.filled += count;
        count
    }

    /// Adds bytes. As often as the buffer is full, what waits in it is written.
    pub fn add<K: Sink>(&mut self, to: &mut K, bytes: &[u8])
        ensures { Took self.old (K.at to.old) bytes.now self.new (K.at to.new) }
    {
        let mut at = 0;
        while at < bytes.len() {
            self.make_room(to);
            if self.unwritten {
                return;
            }
            at += self.keep(&bytes[at..]);
        }
    }

    /// Adds a byte.
    pub fn add_byte<K: Sink>(&mut self, to: &mut K, byte: u8)
        ensures { Took self.old (K.at to.old) (byte ∷ []) self.new (K.at to.new) }
    {
        self.add(to, &[byte]);
    }

    /// Adds a number in digits of base 10.
    pub fn add_number<K: Sink>(&mut self, to: &mut K, number: u64)
        ensures { Took self.old (K.at to.old) (decimal number) self.new (K.at to.new) }
    {
        let mut digits = itoa::Buffer::new();
        self.add(to, digits.format(number).as_bytes());
    }

    /// Adds a number of 128 bits with a sign, in digits of base 10.
    pub fn add_signed<K: Sink>(&mut self, to: &mut K, number: i128)
        ensures { Took self.old (K.at to.old) (signed_decimal number) self.new (K.at to.new) }
    {
        let mut digits = itoa::Buffer::new();
        self.add(to, digits.format(number).as_bytes());
    }

    /// Writes what waits. So all that was added to a blank draft is written, or a write has failed; it says whether one has.
    pub fn finish<K: Sink>(self, to: &mut K) -> bool
        ensures { (begun : DraftAt) (at : OutputAt) (text : List ℕ) → IsBlank begun
            → Took begun at text self (K.at to.old) → Wrote at (K.at to.new) text result }
    {
        let mut draft = self;
        draft.send(to);
        draft.unwritten
    }
}
