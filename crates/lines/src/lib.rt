// Lines of input that are kept in bounded memory.
#![tactic(auto)]

pub mod line;

pub use line::LineBuffer;
