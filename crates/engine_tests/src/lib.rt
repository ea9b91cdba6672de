// Tests of `engine`: colouring and causes.
#![tactic(auto)]

#[cfg(test)]
mod cause_tests;
#[cfg(test)]
mod colouring_tests;
