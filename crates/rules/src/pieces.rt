// The pieces of a rule's text, and what is answered where none goes on.
use crate::syntax::Quantifier;

// What may stand before a rule: `!`, `AX`, `AG`, `AF` and those with `E`.
#[derive(Clone, Copy)]
pub enum Prefix {
    Not,
    Next(Quantifier),
    Globally(Quantifier),
    Finally(Quantifier),
}

// What opens a pair of rules: `(`, or `A(` and `E(`.
#[derive(Clone, Copy)]
pub enum Bracket {
    Plain,
    Quantified(Quantifier),
}

// The first piece of a rule.
#[derive(Clone, Copy)]
pub enum Head {
    Constant(bool),
    Mark(usize),
    Prefix(Prefix),
    Open(Bracket),
}

// What a byte begins where a rule is wanted: it is a piece, or the `p` of a mark, or the letter `A` or `E`
// of a piece.
#[derive(Clone, Copy)]
pub enum Start {
    Piece(Head),
    Mark,
    Letter(Quantifier),
}

// No rule goes on where so many bytes of the text are left.
#[derive(Clone, Copy)]
pub struct Stuck {
    pub left: usize,
}
