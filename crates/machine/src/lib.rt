// The machine that runs applets: load, step, answer.
#![tactic(auto)]

mod acts;
mod code;
mod frames;
mod fresh;
mod looks;
mod machines;
mod states;
mod threads;
mod turns;

pub use acts::{Act, Seen};
pub use frames::{Callers, Frame, Stand};
pub use looks::Position;
pub use machines::Machine;
pub use states::State;
pub use threads::Thread;
