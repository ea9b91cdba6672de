// Tests of `queue`, at numbers and at records.
#![tactic(auto)]

#[cfg(test)]
mod ring_tests;
