//! Words as they are given.

ghost use Rattle.std.specs.Prelude.{◌≡◌, IfOk, map, drop, string_bytes};
ghost use Rattle.std.specs.Vec.Iter.{into_iter_items};

use std::alloc::{AllocError, Global};
use std::convert::AsStr;
use std::env::Args;
use std::marker::Model;

/// A word of the command line. Contracts see it as the bytes of its text.
#[derive(Debug, Drop)]
pub struct Word {
    text: String,
}

impl Model for Word {
    ghost use Rattle.std.specs.Prelude.{ℕ, List};
    ghost use Rattle.std.specs.String.{string_bytes};

    ghost Value = { List ℕ };

    ghost view = { λ word. string_bytes word.text };
}

impl PartialEq for Word {
    ghost use Rattle.std.specs.Prelude.{bytes_eq};
    ghost use Rattle.std.specs.Cmp.{on_per, partial_equiv_from_equiv};
    ghost use Rattle.std.specs.Cmp.Lexicographic.{nat_list_eq_equiv};

    ghost eq = { λ a b. bytes_eq a b };

    ghost laws = { on_per (λ a. a) (partial_equiv_from_equiv nat_list_eq_equiv) };

    fn eq(&self, other: &Word) -> bool {
        self.as_str() == other.as_str()
    }
}

impl Eq for Word {
    ghost use Rattle.std.specs.Cmp.{on_equiv};
    ghost use Rattle.std.specs.Cmp.Lexicographic.{nat_list_eq_equiv};

    ghost laws = { on_equiv (λ a. a) nat_list_eq_equiv };
}

impl AsStr for Word {
    ghost text = { λ word. word };

    fn as_str(&self) -> &str {
        self.text.as_str()
    }
}

impl Word {
    /// The word of this text. It takes no memory.
    pub fn new(text: String) -> Word
        ensures { result ≡ string_bytes text }
    {
        Word { text }
    }

    /// The word of this text, in memory of its own.
    pub fn of(alloc: Global, text: &str) -> Result<Word, AllocError>
        ensures { IfOk result (λ word. word ≡ text.now) }
    {
        Ok(Word {
            text: String::from_str(alloc, text)?,
        })
    }
}

fn as_words(alloc: Global, texts: Args) -> Result<Vec<Word>, AllocError>
    ensures { IfOk result (λ words. words.items ≡ map string_bytes (into_iter_items texts)) }
{
    let mut words = Vec::new(alloc);
    for text in texts {
        words.push(Word::new(text))?;
    }
    Ok(words)
}

/// The words after the program's name, of a program's arguments.
pub fn words_of(alloc: Global, args: Args) -> Result<Vec<Word>, AllocError>
    ensures { IfOk result
        (λ words. words.items ≡ map string_bytes (drop 1 (into_iter_items args))) }
{
    let mut args = args;
    let _name = args.next();
    as_words(alloc, args)
}
