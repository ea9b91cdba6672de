// Tests of `systems` and `tables`, in a crate of their own so that those are not proved twice.
#![tactic(auto)]

#[cfg(test)]
mod file_tests;
#[cfg(test)]
mod kinds_tests;
#[cfg(test)]
mod pass_tests;
#[cfg(test)]
mod questions;
#[cfg(test)]
mod table_tests;
