// Applet files: the reader, and what an applet shows of its file.
#![tactic(auto)]

mod glance;
mod places;
mod reader;
mod spot;

pub use reader::{Applet, Layout};
