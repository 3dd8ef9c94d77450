//! The dimensions of a box over a chunk.

ghost use Rattle.std.specs.Prelude.{◌≡◌, ◌<◌, ◌+◌, ◌*◌, ◌^◌, max, min, length, MatchOption};
ghost use Rattle.region_cells.specs.Sides.{AreOver, Splits};

/// A box of an array's cells and one of the array's chunks, with a number for each dimension.
#[derive(Clone, Copy, Debug)]
pub struct Sides<'a> {
    /// Where the box begins.
    pub from: &'a [u64],
    /// Where it ends; that isn't in it.
    pub to: &'a [u64],
    /// The length of a chunk.
    pub chunks: &'a [u64],
    /// The index of the chunk.
    pub index: &'a [u32],
}

/// One dimension of a box and a chunk.
#[derive(Clone, Copy, Debug)]
pub struct Side {
    /// Where the box begins.
    pub from: u64,
    /// Where it ends; that isn't in it.
    pub to: u64,
    /// The length of a chunk.
    pub chunk: u64,
    /// The number of the chunk.
    pub number: u32,
}

impl Side {
    /// Where the chunk begins.
    pub fn start(self) -> u64
        requires { self.chunk < 2 ^ 32 }
        ensures { result ≡ self.number * self.chunk }
    {
        u64::from(self.number) * self.chunk
    }

    /// The first number that both have, if there is one.
    pub fn first(self) -> u64
        requires { self.chunk < 2 ^ 32 }
        ensures { result ≡ max self.from (self.number * self.chunk) }
    {
        self.from.max(self.start())
    }

    /// What stands behind the last one that both have, if there is one.
    pub fn end(self) -> u64
        requires { self.chunk < 2 ^ 32 }
        ensures { result ≡ min self.to (self.number * self.chunk + self.chunk) }
    {
        self.to.min(self.start() + self.chunk)
    }
}

impl<'a> Sides<'a> {
    /// The first dimension, and those behind it.
    pub fn split(self) -> Option<(Side, Sides<'a>)>
        requires { AreOver self }
        ensures { MatchOption result (length self.entry.chunks.now ≡ 0)
            (λ found. Splits self.entry found.0 found.1) }
    {
        let (from, from_rest) = self.from.split_first()?;
        let (to, to_rest) = self.to.split_first()?;
        let (chunk, chunks_rest) = self.chunks.split_first()?;
        let (number, index_rest) = self.index.split_first()?;
        let side = Side {
            from: *from,
            to: *to,
            chunk: *chunk,
            number: *number,
        };
        let rest = Sides {
            from: from_rest,
            to: to_rest,
            chunks: chunks_rest,
            index: index_rest,
        };
        Some((side, rest))
    }
}
