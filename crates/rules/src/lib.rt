// Rule policies over the bytes of their files: the reader, the step and the blocks.
#![tactic(auto)]

mod borrowed;
mod file;
mod index;
mod reader;
mod sizes;
mod steps;
mod tokens;
mod values;
mod views;
mod writer;

pub use borrowed::Rules;
pub use reader::check;
pub use tokens::Token;
