// State tables over the bytes of their files: the reader, the step and the blocks.
#![tactic(auto)]

mod blocks;
mod reader;
mod row;
mod table;

pub use table::Table;
