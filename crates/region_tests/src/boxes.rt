//! Boxes of arrays of each rank.

use crate::calls::{Opened, region};
use crate::model::{Case, Model, count_of, position, zeros};
use std::alloc::Global;
use std::test::Fail;
use untold_store::went;
use zarr_path::{Index, Path};

const GROUP: &[u8] = br#"{"zarr_format":3,"node_type":"group"}"#;

const CASES: [Case; 7] = [
    Case {
        kind: "int8",
        size: 1,
        big: false,
        signed: true,
        fill: -7,
        shape: &[],
        chunks: &[],
        shrunk: &[],
        boxes: &[(&[], &[])],
    },
    Case {
        kind: "uint16",
        size: 2,
        big: true,
        signed: false,
        fill: 9,
        shape: &[7],
        chunks: &[3],
        shrunk: &[4],
        boxes: &[
            (&[0], &[7]),
            (&[2], &[2]),
            (&[3], &[6]),
            (&[2], &[7]),
            (&[6], &[7]),
        ],
    },
    Case {
        kind: "int32",
        size: 4,
        big: false,
        signed: true,
        fill: -1,
        shape: &[4, 5],
        chunks: &[2, 3],
        shrunk: &[3, 2],
        boxes: &[
            (&[0, 1], &[3, 5]),
            (&[2, 2], &[2, 4]),
            (&[1, 2], &[3, 4]),
            (&[3, 4], &[4, 5]),
        ],
    },
    Case {
        kind: "int16",
        size: 2,
        big: true,
        signed: true,
        fill: 0,
        shape: &[5, 3],
        chunks: &[4, 2],
        shrunk: &[4, 0],
        boxes: &[(&[3, 1], &[5, 3]), (&[0, 2], &[5, 3]), (&[0, 0], &[5, 3])],
    },
    Case {
        kind: "int64",
        size: 8,
        big: false,
        signed: true,
        fill: -1000000007,
        shape: &[40, 30],
        chunks: &[16, 16],
        shrunk: &[20, 20],
        boxes: &[(&[10, 14], &[35, 18]), (&[39, 29], &[40, 30])],
    },
    Case {
        kind: "int64",
        size: 8,
        big: true,
        signed: true,
        fill: 5,
        shape: &[3, 4, 5],
        chunks: &[2, 2, 2],
        shrunk: &[1, 4, 3],
        boxes: &[
            (&[1, 1, 1], &[3, 3, 4]),
            (&[2, 0, 4], &[3, 4, 5]),
            (&[0, 4, 0], &[3, 4, 5]),
        ],
    },
    Case {
        kind: "uint8",
        size: 1,
        big: true,
        signed: false,
        fill: 200,
        shape: &[2, 3, 2, 4],
        chunks: &[1, 2, 2, 3],
        shrunk: &[2, 1, 2, 4],
        boxes: &[
            (&[0, 1, 0, 1], &[2, 3, 1, 4]),
            (&[1, 2, 1, 3], &[2, 3, 2, 4]),
        ],
    },
];

/// A chunk's index, and where its cells begin and end.
#[derive(Drop)]
struct Place {
    index: Index,
    from: Vec<u64>,
    to: Vec<u64>,
}

/// The place of the chunk at a position.
fn place_of(alloc: Global, case: &Case, position: &[u64]) -> Option<Place> {
    let mut parts = Vec::new(alloc);
    let mut from = Vec::new(alloc);
    let mut to = Vec::new(alloc);
    for (number, length) in position.iter().zip(case.chunks) {
        let first = number.checked_mul(*length)?;
        parts.push(u32::try_from(*number).ok()?).ok()?;
        from.push(first).ok()?;
        to.push(first.checked_add(*length)?).ok()?;
    }
    let index = Index::from_parts(parts);
    Some(Place { index, from, to })
}

/// Sets two of each three chunks, whose bytes have numbers behind the array's edge too.
fn set_chunks(
    alloc: Global,
    case: &Case,
    path: &Path,
    model: &mut Model,
    opened: &mut Opened,
) -> Option<()> {
    let counts = case.counts(alloc)?;
    let origin = zeros(alloc, counts.as_slice())?;
    for chunk in 0..count_of(origin.as_slice(), counts.as_slice()) {
        if chunk % 3 != 1 {
            let position = position(alloc, counts.as_slice(), chunk)?;
            let place = place_of(alloc, case, position.as_slice())?;
            let (from, to) = (place.from.as_slice(), place.to.as_slice());
            let numbers = case.numbers(alloc, count_of(from, to), chunk)?;
            model.write(alloc, from, to, numbers.as_slice())?;
            let bytes = case.bytes(alloc, numbers.as_slice())?;
            opened.set_chunk(path, &place.index, bytes.as_slice())?;
        }
    }
    Some(())
}

/// Whether a box reads as the model does.
fn reads(
    alloc: Global,
    path: &Path,
    sides: (&[u64], &[u64]),
    model: &Model,
    opened: &mut Opened,
) -> Option<()> {
    let (from, to) = sides;
    let wanted = model.read(alloc, from, to)?;
    let region = region(alloc, path, from, to)?;
    let numbers = opened.numbers(alloc, region)?;
    (numbers.as_slice() == wanted.as_slice()).then_some(())
}

/// Whether each box reads as the model does.
fn reads_each(
    alloc: Global,
    case: &Case,
    path: &Path,
    model: &Model,
    opened: &mut Opened,
) -> Option<()> {
    for (from, to) in case.boxes {
        reads(alloc, path, (from, to), model, opened)?;
    }
    Some(())
}

/// Whether the whole of an array of this shape reads as the model does.
fn reads_whole(
    alloc: Global,
    path: &Path,
    shape: &[u64],
    model: &Model,
    opened: &mut Opened,
) -> Option<()> {
    let origin = zeros(alloc, shape)?;
    let sides = (origin.as_slice(), shape);
    reads(alloc, path, sides, model, opened)
}

/// Puts other numbers into a box, of the model too.
fn writes(
    alloc: Global,
    case: &Case,
    path: &Path,
    sides: (&[u64], &[u64]),
    model: &mut Model,
    opened: &mut Opened,
) -> Option<()> {
    let (from, to) = sides;
    let count = count_of(from, to);
    let numbers = case.numbers(alloc, count, count.wrapping_add(41))?;
    model.write(alloc, from, to, numbers.as_slice())?;
    let region = region(alloc, path, from, to)?;
    opened.set_numbers(alloc, region, numbers)
}

/// Whether the whole array reads as the model does behind the write of each box.
fn writes_each(
    alloc: Global,
    case: &Case,
    path: &Path,
    model: &mut Model,
    opened: &mut Opened,
) -> Option<()> {
    for (from, to) in case.boxes {
        writes(alloc, case, path, (from, to), model, opened)?;
        reads_whole(alloc, path, case.shape, model, opened)?;
    }
    Some(())
}

/// Gives the array another shape.
fn shaped(
    alloc: Global,
    case: &Case,
    path: &Path,
    shape: &[u64],
    opened: &mut Opened,
) -> Option<()> {
    let text = case.text(alloc, shape)?;
    let session = opened.session()?;
    went(session.set_meta(path, text.as_bytes())).then_some(())
}

/// Whether all cells of the chunks are as the model says where the array shrinks, is written whole, and grows to fill its
/// chunks.
fn shrinks_and_grows(
    alloc: Global,
    case: &Case,
    path: &Path,
    model: &mut Model,
    opened: &mut Opened,
) -> Option<()> {
    let grid = case.grid(alloc)?;
    let origin = zeros(alloc, grid.as_slice())?;
    shaped(alloc, case, path, grid.as_slice(), opened)?;
    reads_whole(alloc, path, grid.as_slice(), model, opened)?;
    shaped(alloc, case, path, case.shrunk, opened)?;
    let sides = (origin.as_slice(), case.shrunk);
    writes(alloc, case, path, sides, model, opened)?;
    shaped(alloc, case, path, grid.as_slice(), opened)?;
    reads_whole(alloc, path, grid.as_slice(), model, opened)
}

/// Adds the array, beneath the root.
fn array_added(alloc: Global, case: &Case, path: &Path, opened: &mut Opened) -> Option<()> {
    let root = Path::read(alloc, "/").ok()?;
    let text = case.text(alloc, case.shape)?;
    let session = opened.session()?;
    let added = went(session.add_group(&root, GROUP));
    (added && went(session.add_array(path, text.as_bytes()))).then_some(())
}

/// Whether all reads are those of the model: of chunks that a session holds, of those of its base, behind each write, and
/// where the shape is another.
fn is_as_modelled(alloc: Global, case: &Case) -> Option<()> {
    let mut opened = Opened::new(alloc)?;
    let path = Path::read(alloc, "/x").ok()?;
    array_added(alloc, case, &path, &mut opened)?;
    let mut model = Model::new(alloc, case)?;
    set_chunks(alloc, case, &path, &mut model, &mut opened)?;
    reads_each(alloc, case, &path, &model, &mut opened)?;
    opened.commit(alloc, 2)?;
    reads_each(alloc, case, &path, &model, &mut opened)?;
    writes_each(alloc, case, &path, &mut model, &mut opened)?;
    shrinks_and_grows(alloc, case, &path, &mut model, &mut opened)?;
    opened.commit(alloc, 3)?;
    let grid = case.grid(alloc)?;
    reads_whole(alloc, &path, grid.as_slice(), &model, &mut opened)
}

#[test]
fn boxes(rt: HostRuntime) -> Result<(), Fail> {
    for case in &CASES {
        if is_as_modelled(rt.alloc(), case).is_none() {
            return Err(Fail::new(case.kind));
        }
    }
    Ok(())
}
