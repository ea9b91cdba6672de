// Rules: CTL formulas in negation normal form, read from text.
#![tactic(auto)]

mod bytes;
mod clause_list;
pub mod display;
mod negation;
mod pieces;
mod prefixes;
mod reader;
pub mod reading;
pub mod rule;
mod scan;
pub mod syntax;
pub mod theorems;

pub use reading::read;
pub use rule::Rule;
pub use syntax::{Clause, Operator, Quantifier};
