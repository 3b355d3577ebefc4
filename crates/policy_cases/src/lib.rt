// Tests of policies: their files, calls, steps, blocks, pairs and the watch. What is expected is
// worked out by hand from docs/POLICIES.md and docs/REFUSALS.md.
#![tactic(auto)]

#[cfg(test)]
mod asking;
#[cfg(test)]
mod files;
#[cfg(test)]
mod pairs;
#[cfg(test)]
mod reading;
#[cfg(test)]
mod singles;
#[cfg(test)]
mod watching;
