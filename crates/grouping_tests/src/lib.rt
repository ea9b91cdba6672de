// Tests of `groupings`.
#![tactic(auto)]

#[cfg(test)]
mod groups_tests;
