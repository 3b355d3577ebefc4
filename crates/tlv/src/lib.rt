// The fields that files are made of: a tag, a length, the contents.
#![tactic(auto)]

mod rows;

pub use rows::{Fault, Field, Fields, Part};
