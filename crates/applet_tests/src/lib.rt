// Tests of the applet reader. What is expected is worked out by hand from docs/FORMAT.md and
// docs/REFUSALS.md.
#![tactic(auto)]

#[cfg(test)]
mod files;
#[cfg(test)]
mod instructions;
#[cfg(test)]
mod reading;
mod shared;

pub use shared::{A, INSTRUCTIONS, LIMITS, answer, led_by};
