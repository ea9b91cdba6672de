// Tests of `study`: the calls one after another.
#![tactic(auto)]

#[cfg(test)]
mod study_tests;
