// Applets for the tests, by their instructions.
use std::alloc::{AllocError, Global};

pub(crate) const SET: u8 = 0x01;

pub(crate) const MOV: u8 = 0x02;

pub(crate) const ADD: u8 = 0x03;

pub(crate) const SUB: u8 = 0x04;

pub(crate) const LT: u8 = 0x05;

pub(crate) const EQ: u8 = 0x06;

pub(crate) const GET: u8 = 0x07;

pub(crate) const PUT: u8 = 0x08;

pub(crate) const JUMP: u8 = 0x09;

pub(crate) const BRZ: u8 = 0x0a;

pub(crate) const CALL: u8 = 0x0b;

pub(crate) const RET: u8 = 0x0c;

pub(crate) const HOST: u8 = 0x0d;

pub(crate) const END: u8 = 0x0e;

pub(crate) const LOCK: u8 = 0x20;

pub(crate) const UNLOCK: u8 = 0x21;

pub(crate) const SKIP: u8 = 0x22;

pub(crate) const SKZ: u8 = 0x23;

pub(crate) const VIOL: u8 = 0x24;

pub(crate) const MSET: u8 = 0x25;

pub(crate) const MCELL: u8 = 0x26;

pub(crate) const MARG: u8 = 0x27;

pub(crate) const STORE: u8 = 0x28;

pub(crate) const OP: u8 = 0x29;

// Not an instruction: a method of so many bytes begins behind it.
pub(crate) const METHOD: u8 = 0xff;

// An applet by the methods that its threads start in, the start values of its cells, how many methods
// it has, and their code.
pub(crate) fn file(
    heap: Global,
    entries: &[u8],
    cells: &[u8],
    methods: u8,
    code: &[[u8; 4]],
) -> Result<Vec<u8>, AllocError> {
    let mut file = [1, 0, 2, 1, methods, 2, 0, (entries.len() % 256) as u8].to_vec(heap)?;
    file.extend_from_slice(entries)?;
    file.extend_from_slice(&[3, 0, (cells.len() % 256) as u8])?;
    file.extend_from_slice(cells)?;
    for row in code {
        if row[0] == METHOD {
            file.extend_from_slice(&[4, row[2], row[3]])?;
        } else {
            file.extend_from_slice(row)?;
        }
    }
    Ok(file)
}
