// Instructions: the table of opcodes, and instructions in their four bytes.
#![tactic(auto)]

mod table;
mod words;

pub use table::{Entry, Kind, Operand, look_up};
pub use words::{Word, decode, encode, operator_number};
