// What single bytes of a rule's text mean.
ghost use Rattle.std.specs.Prelude.{◌≡◌};
ghost use Rattle.rules.specs.reader.Bytes.{start_of, follow_of, joining, digit_of, closes};

use crate::pieces::{Bracket, Head, Prefix, Start};
use crate::syntax::{Operator, Quantifier};

// What a byte begins where a rule is wanted.
pub(crate) fn start(byte: u8) -> Option<Start>
    ensures { result ≡ start_of byte }
{
    match byte {
        b'0' => Some(Start::Piece(Head::Constant(false))),
        b'1' => Some(Start::Piece(Head::Constant(true))),
        b'p' => Some(Start::Mark),
        b'!' => Some(Start::Piece(Head::Prefix(Prefix::Not))),
        b'A' => Some(Start::Letter(Quantifier::A)),
        b'E' => Some(Start::Letter(Quantifier::E)),
        b'(' => Some(Start::Piece(Head::Open(Bracket::Plain))),
        _ => None,
    }
}

// What a byte makes of the letter before it.
pub(crate) fn follow(quantifier: Quantifier, byte: u8) -> Option<Head>
    ensures { result ≡ follow_of quantifier byte }
{
    match byte {
        b'X' => Some(Head::Prefix(Prefix::Next(quantifier))),
        b'G' => Some(Head::Prefix(Prefix::Globally(quantifier))),
        b'F' => Some(Head::Prefix(Prefix::Finally(quantifier))),
        b'(' => Some(Head::Open(Bracket::Quantified(quantifier))),
        _ => None,
    }
}

// The operator that a byte is between the two rules of a bracket.
pub(crate) fn joint(bracket: Bracket, byte: u8) -> Option<Operator>
    ensures { result ≡ joining bracket byte }
{
    match (bracket, byte) {
        (Bracket::Plain, b'&') => Some(Operator::And),
        (Bracket::Plain, b'|') => Some(Operator::Or),
        (Bracket::Quantified(quantifier), b'U') => Some(quantifier.until()),
        (Bracket::Quantified(quantifier), b'V') => Some(quantifier.release()),
        _ => None,
    }
}

// The digit that a byte is, if it is at most MOST.
pub(crate) fn digit<const MOST: u8>(byte: u8) -> Option<usize>
    ensures { result ≡ digit_of MOST byte }
{
    let digit = byte.checked_sub(b'0')?;
    (digit <= MOST).then_some(usize::from(digit))
}

// Whether a byte ends a bracket.
pub(crate) fn close(byte: u8) -> Option<()>
    ensures { result ≡ closes byte }
{
    match byte {
        b')' => Some(()),
        _ => None,
    }
}
