//! What is wrong with a line.

ghost use Rattle.std.specs.Prelude.{◌≡◌};
ghost use Rattle.script_values.specs.Parts.{rank, earlier};

use std::fmt;

/// What is wrong with a script, in the order in which it is told.
#[derive(Clone, Copy, Debug, PartialEq, Eq)]
pub enum ScriptKind {
    /// The script has more bytes than a script may have.
    Long,
    /// The line isn't UTF-8.
    Text,
    /// A word of it is unknown where it stands, it has too few or too many words, or an empty one.
    Word,
    /// It doesn't stand at its place.
    Misplaced,
    /// It begins a task, and the script has as many as it may have.
    Many,
    /// The name of a task or of a ref is refused, or another task has it.
    Name,
    /// The path of a node is refused.
    Path,
    /// A digit, a list of numbers, a fill value, a count or a cutoff is refused.
    Number,
    /// Its bytes aren't pairs of lower-case digits of base 16.
    Hex,
    /// The id of a snapshot is refused.
    Id,
    /// A turn is of a task that the script doesn't have.
    Turn,
}

impl fmt::Display for ScriptKind {
    ghost use Rattle.std.specs.Prelude.{Some};
    ghost use Rattle.script_values.specs.Parts.{kind_text};

    ghost output = { λ kind. Some (kind_text kind) };

    fn fmt<W: fmt::Write>(&self, f: &mut fmt::Formatter<W>) -> fmt::Result {
        match *self {
            ScriptKind::Long => f.write_str("long"),
            ScriptKind::Text => f.write_str("text"),
            ScriptKind::Word => f.write_str("word"),
            ScriptKind::Misplaced => f.write_str("place"),
            ScriptKind::Many => f.write_str("many"),
            ScriptKind::Name => f.write_str("name"),
            ScriptKind::Path => f.write_str("path"),
            ScriptKind::Number => f.write_str("number"),
            ScriptKind::Hex => f.write_str("hex"),
            ScriptKind::Id => f.write_str("id"),
            ScriptKind::Turn => f.write_str("turn"),
        }
    }
}

impl ScriptKind {
    fn rank(self) -> u8
        ensures { result ≡ rank self }
    {
        self as u8
    }

    /// The one of two kinds that is told.
    pub fn earlier(self, other: ScriptKind) -> ScriptKind
        ensures { result ≡ earlier self other }
    {
        if self.rank() <= other.rank() {
            self
        } else {
            other
        }
    }
}
