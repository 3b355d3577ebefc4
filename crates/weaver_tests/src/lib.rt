// Tests of weaving, and the files that they share with weaver_cases. What is expected is worked out by
// hand from docs/POLICIES.md and docs/REFUSALS.md.
#![tactic(auto)]

pub mod files;
#[cfg(test)]
mod weaving;
