// Tests of policies: their files, steps, blocks, pairs and the watch. What is expected is worked out
// by hand from docs/POLICIES.md and docs/REFUSALS.md.
#![tactic(auto)]

#[cfg(test)]
mod files;
#[cfg(test)]
mod reading;
#[cfg(test)]
mod stepping;
