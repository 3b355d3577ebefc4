// Tests of the machine. What is expected is worked out by hand from docs/MACHINE.md.
#![tactic(auto)]

#[cfg(test)]
mod applets;
#[cfg(test)]
mod scripts;
#[cfg(test)]
mod stepping;
