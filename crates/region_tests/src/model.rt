//! An array's cells, one by one.

use std::alloc::Global;

/// An array, and boxes of it.
pub(crate) struct Case {
    pub(crate) kind: &'static str,
    pub(crate) size: usize,
    pub(crate) big: bool,
    pub(crate) signed: bool,
    pub(crate) fill: i128,
    pub(crate) shape: &'static [u64],
    pub(crate) chunks: &'static [u64],
    pub(crate) shrunk: &'static [u64],
    pub(crate) boxes: &'static [(&'static [u64], &'static [u64])],
}

impl Case {
    /// The metadata of the array with this shape.
    pub(crate) fn text(&self, alloc: Global, shape: &[u64]) -> Option<String> {
        let endian = if self.big { "big" } else { "little" };
        format!(in alloc;
            "{{\"zarr_format\":3,\"node_type\":\"array\",\"shape\":{shape:?},\"data_type\":\"{}\",\
            \"chunk_grid\":{{\"name\":\"regular\",\"configuration\":{{\"chunk_shape\":{:?}}}}},\
            \"chunk_key_encoding\":{{\"name\":\"default\"}},\"fill_value\":{},\
            \"codecs\":[{{\"name\":\"bytes\",\"configuration\":{{\"endian\":\"{endian}\"}}}}]}}",
            self.kind, self.chunks, self.fill
        )
        .ok()
    }

    /// A number of the type.
    fn number(&self, seed: u64) -> i128 {
        let most = if self.size == 1 { 101 } else { 30011 };
        let number = seed.wrapping_mul(7919) % most;
        if self.signed && number % 2 == 1 {
            !i128::from(number)
        } else {
            i128::from(number)
        }
    }

    /// So many numbers of the type.
    pub(crate) fn numbers(&self, alloc: Global, count: u64, seed: u64) -> Option<Vec<i128>> {
        let mut numbers = Vec::new(alloc);
        for at in 0..count {
            numbers.push(self.number(at.wrapping_add(seed))).ok()?;
        }
        Some(numbers)
    }

    /// The bytes of elements with these numbers.
    pub(crate) fn bytes(&self, alloc: Global, numbers: &[i128]) -> Option<Vec<u8>> {
        let mut bytes = Vec::new(alloc);
        for number in numbers {
            let element = if self.big {
                number.to_be_bytes()
            } else {
                number.to_le_bytes()
            };
            let part = if self.big {
                element.get(16usize.checked_sub(self.size)?..)
            } else {
                element.get(..self.size)
            };
            bytes.extend_from_slice(part?).ok()?;
        }
        Some(bytes)
    }

    /// How many chunks there are along each dimension.
    pub(crate) fn counts(&self, alloc: Global) -> Option<Vec<u64>> {
        let mut counts = Vec::new(alloc);
        for (length, chunk) in self.shape.iter().zip(self.chunks) {
            let last = length.checked_sub(1)?.checked_div(*chunk)?;
            counts.push(last.checked_add(1)?).ok()?;
        }
        Some(counts)
    }

    /// The shape that the array's chunks fill.
    pub(crate) fn grid(&self, alloc: Global) -> Option<Vec<u64>> {
        let mut grid = Vec::new(alloc);
        for (count, chunk) in self.counts(alloc)?.iter().zip(self.chunks) {
            grid.push(count.checked_mul(*chunk)?).ok()?;
        }
        Some(grid)
    }
}

/// As many zeros as these.
pub(crate) fn zeros(alloc: Global, sides: &[u64]) -> Option<Vec<u64>> {
    let mut zeros = Vec::new(alloc);
    for _ in sides {
        zeros.push(0).ok()?;
    }
    Some(zeros)
}

/// How many cells a box has.
pub(crate) fn count_of(from: &[u64], to: &[u64]) -> u64 {
    let mut count: u64 = 1;
    for (first, end) in from.iter().zip(to) {
        count = count.wrapping_mul(end.wrapping_sub(*first));
    }
    count
}

/// The position at a place in C order.
pub(crate) fn position(alloc: Global, counts: &[u64], place: u64) -> Option<Vec<u64>> {
    let mut rest = place;
    let mut parts = Vec::new(alloc);
    for count in counts.iter().rev() {
        parts.push(rest.checked_rem(*count)?).ok()?;
        rest = rest.checked_div(*count)?;
    }
    parts.reverse();
    Some(parts)
}

/// The place of a cell of a box in the whole grid.
fn place_in(grid: &[u64], from: &[u64], offsets: &[u64]) -> u64 {
    let mut place: u64 = 0;
    for ((side, first), offset) in grid.iter().zip(from).zip(offsets) {
        place = place
            .wrapping_mul(*side)
            .wrapping_add(first.wrapping_add(*offset));
    }
    place
}

/// The places of a box's cells in the whole grid, in C order.
fn places(alloc: Global, grid: &[u64], from: &[u64], to: &[u64]) -> Option<Vec<usize>> {
    let mut lengths = Vec::new(alloc);
    for (first, end) in from.iter().zip(to) {
        lengths.push(end.checked_sub(*first)?).ok()?;
    }
    let mut places = Vec::new(alloc);
    for at in 0..count_of(from, to) {
        let offsets = position(alloc, lengths.as_slice(), at)?;
        places
            .push(place_in(grid, from, offsets.as_slice()) as usize)
            .ok()?;
    }
    Some(places)
}

/// The numbers of all cells of an array's chunks, also of those behind its edge.
#[derive(Drop)]
pub(crate) struct Model {
    pub(crate) grid: Vec<u64>,
    cells: Vec<i128>,
}

impl Model {
    /// An array none of whose chunks is held.
    pub(crate) fn new(alloc: Global, case: &Case) -> Option<Model> {
        let grid = case.grid(alloc)?;
        let origin = zeros(alloc, grid.as_slice())?;
        let mut cells = Vec::new(alloc);
        for _ in 0..count_of(origin.as_slice(), grid.as_slice()) {
            cells.push(case.fill).ok()?;
        }
        Some(Model { grid, cells })
    }

    /// The numbers of a box.
    pub(crate) fn read(&self, alloc: Global, from: &[u64], to: &[u64]) -> Option<Vec<i128>> {
        let mut numbers = Vec::new(alloc);
        for place in places(alloc, self.grid.as_slice(), from, to)? {
            numbers.push(*self.cells.get(place)?).ok()?;
        }
        Some(numbers)
    }

    /// Gives a box these numbers.
    pub(crate) fn write(
        &mut self,
        alloc: Global,
        from: &[u64],
        to: &[u64],
        numbers: &[i128],
    ) -> Option<()> {
        let places = places(alloc, self.grid.as_slice(), from, to)?;
        for (place, number) in places.iter().zip(numbers) {
            *self.cells.get_mut(*place)? = *number;
        }
        Some(())
    }
}
