//! Ids of objects and nodes, their texts in base 32, how new ids are drawn, and sets of ids of objects.
#![tactic(auto)]

ghost use Rattle.std.specs.Prelude.{◌≡◌, ◌<◌, List, ℕ, length, All};
ghost use Rattle.ice_ids.specs.Text.{IsId12, IsId8, id12_text, id8_text, id12_of_text, id8_of_text};

use std::fmt;

mod base32;
mod drawing;
pub mod laws;
mod sets;

use base32::{number_of_bytes, number_of_text, write_bytes, write_letters};
pub use drawing::{AnyIds, CountIds, Draw, Ids, StreamIds, two_words, word_bytes};
pub use sets::ObjectIds;

/// The id of an object: a snapshot, a manifest, a transaction log or a chunk. Ids are ordered by
/// their bytes. (Icechunk specification version 1, object ids.)
#[derive(Clone, Copy, Debug, PartialEq, Eq, PartialOrd, Ord)]
pub struct Id12(pub [u8; 12]);

/// The id of a node, that is of a group or an array. Ids are ordered by their bytes. (Icechunk
/// specification version 1, node ids.)
#[derive(Clone, Copy, Debug, PartialEq, Eq, PartialOrd, Ord)]
pub struct Id8(pub [u8; 8]);

/// Why a text is no id.
#[derive(Clone, Copy, Debug, Drop, PartialEq, Eq)]
pub enum IdFault {
    /// The text has this many bytes, and not the 20 or 13 of an id.
    Length(usize),
    /// The first byte that is no letter of the alphabet stands at this place, counted from 0.
    Digit(usize),
    /// A bit that was added at the end isn't zero.
    Added,
}

impl Id12 {
    /// The id of the initial snapshot of each repository, `1CECHNKREP0F1RSTCMT0`. (This project's
    /// profile.)
    pub const INITIAL: Id12 = Id12([
        0x0b, 0x1c, 0xc8, 0xd6, 0x78, 0x75, 0x80, 0xf0, 0xe3, 0x3a, 0x65, 0x34,
    ]);

    /// The id's text: 20 letters of Crockford's base 32, of which the last carries 4 added zero
    /// bits.
    #[tactic(auto, unfolding(crate::specs::Text::text_of_bytes))]
    pub fn text(&self) -> [u8; 20]
        ensures text { result ≡ id12_text self.now }
        ensures id { IsId12 self.now }
    {
        let mut text = [0; 20];
        write_letters(number_of_bytes(&self.0) * 16, &mut text);
        text
    }

    /// Reads the text of an id, and nothing else: `text` of an id is read as that id. The faults
    /// come in the order in which `IdFault` lists them. It takes no memory.
    pub fn read(text: &[u8]) -> Result<Id12, IdFault>
        ensures { result ≡ id12_of_text text.now }
    {
        let number = number_of_text(text, 20, 4)?;
        let mut bytes = [0; 12];
        write_bytes(number, &mut bytes);
        Ok(Id12(bytes))
    }
}

impl Id8 {
    /// The id's text: 13 letters of Crockford's base 32, of which the last carries 1 added zero
    /// bit.
    #[tactic(auto, unfolding(crate::specs::Text::text_of_bytes))]
    pub fn text(&self) -> [u8; 13]
        ensures text { result ≡ id8_text self.now }
        ensures id { IsId8 self.now }
    {
        let mut text = [0; 13];
        write_letters(number_of_bytes(&self.0) * 2, &mut text);
        text
    }

    /// Reads the text of an id, and nothing else: `text` of an id is read as that id. The faults
    /// come in the order in which `IdFault` lists them. It takes no memory.
    pub fn read(text: &[u8]) -> Result<Id8, IdFault>
        ensures { result ≡ id8_of_text text.now }
    {
        let number = number_of_text(text, 13, 1)?;
        let mut bytes = [0; 8];
        write_bytes(number, &mut bytes);
        Ok(Id8(bytes))
    }
}

impl fmt::Display for Id12 {
    ghost use Rattle.std.specs.Prelude.{Some};
    ghost use Rattle.ice_ids.specs.Text.{id12_text};

    ghost output = { λ id. Some (id12_text id) };

    fn fmt<W: fmt::Write>(&self, f: &mut fmt::Formatter<W>) -> fmt::Result {
        f.write_str(str::from_utf8(&self.text()).unwrap())
    }
}

impl fmt::Display for Id8 {
    ghost use Rattle.std.specs.Prelude.{Some};
    ghost use Rattle.ice_ids.specs.Text.{id8_text};

    ghost output = { λ id. Some (id8_text id) };

    fn fmt<W: fmt::Write>(&self, f: &mut fmt::Formatter<W>) -> fmt::Result {
        f.write_str(str::from_utf8(&self.text()).unwrap())
    }
}
