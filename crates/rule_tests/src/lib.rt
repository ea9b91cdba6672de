// Tests of `rules` and `lines`, in a crate of their own so that those are not proved twice.
#![tactic(auto)]

#[cfg(test)]
mod line_tests;
#[cfg(test)]
mod reading_tests;
