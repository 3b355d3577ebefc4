// Files for the tests, and what a reading of them answers.
use crate::A;
use std::alloc::{AllocError, Global};

// A with some of its bytes changed.
pub(crate) fn changed(changes: &[(usize, u8)]) -> [u8; 27] {
    let mut file = A;
    for (at, new) in changes {
        if let Some(byte) = file.get_mut(*at) {
            *byte = *new;
        }
    }
    file
}

// A with its method cut to one instruction.
pub(crate) fn only(op: u8, x: u8, y: u16) -> [u8; 19] {
    let [high, low] = y.to_be_bytes();
    [
        1, 0, 2, 1, 1, 2, 0, 1, 0, 3, 0, 0, 4, 0, 4, op, x, high, low,
    ]
}

// A tag and a length.
fn begin(file: &mut Vec<u8>, tag: u8, length: usize) -> Result<(), AllocError> {
    let [.., high, low] = length.to_be_bytes();
    file.extend_from_slice(&[tag, high, low])
}

// One method of so many ENDs.
pub(crate) fn method(file: &mut Vec<u8>, size: usize) -> Result<(), AllocError> {
    begin(file, 4, size.saturating_mul(4))?;
    for _ in 0..size {
        file.extend_from_slice(&[14, 0, 0, 0])?;
    }
    Ok(())
}

// A file up to its methods: so many methods are announced, so many threads start in method 0, and
// so many cells start at 0.
pub(crate) fn front(
    heap: Global,
    methods: u8,
    threads: usize,
    cells: usize,
) -> Result<Vec<u8>, AllocError> {
    let mut file = [1, 0, 2, 1, methods].to_vec(heap)?;
    begin(&mut file, 2, threads)?;
    for _ in 0..threads {
        file.push(0)?;
    }
    begin(&mut file, 3, cells.saturating_mul(4))?;
    for _ in 0..cells {
        file.extend_from_slice(&[0, 0, 0, 0])?;
    }
    Ok(file)
}

// A file whose methods are one END each.
pub(crate) fn small(
    heap: Global,
    methods: u8,
    threads: usize,
    cells: usize,
) -> Result<Vec<u8>, AllocError> {
    let mut file = front(heap, methods, threads, cells)?;
    for _ in 0..methods {
        method(&mut file, 1)?;
    }
    Ok(file)
}

// A file of one method of so many ENDs.
pub(crate) fn sized(heap: Global, size: usize) -> Result<Vec<u8>, AllocError> {
    let mut file = front(heap, 1, 1, 0)?;
    method(&mut file, size)?;
    Ok(file)
}

// A file of 65,535 bytes: 5 for the head, 7 for four threads, 3 for no cells, and four methods of
// 3 bytes and their instructions, 16,377 in all.
pub(crate) fn longest(heap: Global) -> Result<Vec<u8>, AllocError> {
    let mut file = front(heap, 4, 4, 0)?;
    for size in [4096, 4096, 4096, 4089] {
        method(&mut file, size)?;
    }
    Ok(file)
}
