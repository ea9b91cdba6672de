// The pieces at the start of what is left of a rule's text.
ghost use Rattle.std.specs.Prelude.{◌≡◌, ◌==◌, ◌≤◌, length, drop};
ghost use Rattle.rules.specs.reader.Machine.{want, digit_wanted, after_one, letter, headed};
ghost use Rattle.rules.specs.reader.Scans.{spaces, Takes, Goes, Reads, marked, between_rules, joined_by, in_bracket, closed};

use crate::bytes::{close, digit, follow, joint, start};
use crate::pieces::{Bracket, Head, Start, Stuck};
use crate::syntax::{Operator, Quantifier};
use std::marker::Model;

// The bytes of a text that are still to be read.
#[derive(Drop)]
pub struct Rest<'a> {
    bytes: &'a [u8],
}

impl<'a> Model for Rest<'a> {
    ghost use Rattle.std.specs.Prelude.{ℕ, List};

    ghost Value = { List ℕ };

    ghost view = { λ rest. rest.bytes.now };
}

// How many spaces a text begins with.
fn count_spaces(text: &[u8]) -> usize
    ensures is { result ≡ spaces text.now }
    ensures inside { result ≤ length text.now }
{
    text.iter().take_while(|byte| **byte == b' ').count()
}

impl<'a> Rest<'a> {
    pub(crate) fn new(bytes: &'a [u8]) -> Rest<'a>
        ensures { result ≡ bytes.now }
    {
        Rest { bytes }
    }

    pub(crate) fn is_empty(&self) -> bool
        ensures { result ≡ (length self.now == 0) }
    {
        self.bytes.is_empty()
    }

    // What is told where no rule goes on here.
    pub(crate) fn stuck(&self) -> Stuck
        ensures { result.left ≡ length self.now }
    {
        Stuck {
            left: self.bytes.len(),
        }
    }

    // What is left after the spaces here.
    pub(crate) fn without_spaces(&self) -> Rest<'a>
        ensures { result ≡ drop (spaces self.now) self.now }
    {
        Rest::new(&self.bytes[count_spaces(self.bytes)..])
    }

    // Takes the next byte, if it means something here.
    fn take<T, F: Fn(u8) -> Option<T>>(&mut self, meaning: F) -> Result<T, Stuck>
        requires { F.IsAlwaysCallable meaning }
        ensures { Takes F.Fn meaning self.old self.new result }
    {
        let stuck = self.stuck();
        let (first, others) = self.bytes.split_first().ok_or(stuck)?;
        let found = meaning(*first).ok_or(stuck)?;
        self.bytes = others;
        Ok(found)
    }

    // Skips spaces, and takes the next byte, if it means something here.
    fn take_after_spaces<T, F: Fn(u8) -> Option<T>>(&mut self, meaning: F) -> Result<T, Stuck>
        requires { F.IsAlwaysCallable meaning }
        ensures { Takes F.Fn meaning (drop (spaces self.old) self.old) self.new result }
    {
        *self = self.without_spaces();
        self.take(meaning)
    }

    // The number of a mark, after its p and a 1: the marks are 0 to 15.
    fn mark_after_one(&mut self) -> usize
        ensures { Goes after_one marked self.old self.new result }
    {
        self.take(digit::<5>).map_or(1, |second| 10 + second)
    }

    // The number of a mark, after its p.
    #[tactic(auto, using(crate::proofs::Scans::digit_read, crate::proofs::Scans::digit_alone, crate::proofs::Scans::then_goes, crate::proofs::Scans::stopped))]
    fn mark(&mut self) -> Result<usize, Stuck>
        ensures { Reads digit_wanted marked self.old self.new result }
    {
        let number = self.take(digit::<9>)?;
        if number == 1 {
            Ok(self.mark_after_one())
        } else {
            Ok(number)
        }
    }

    // What a letter begins.
    fn after_letter(&mut self, quantifier: Quantifier) -> Result<Head, Stuck>
        ensures { Reads (letter quantifier) headed self.old self.new result }
    {
        self.take(|byte| follow(quantifier, byte))
    }

    // The first piece of a rule.
    #[tactic(auto, using(crate::proofs::Scans::began, crate::proofs::Scans::then_reads, crate::proofs::Scans::stopped))]
    pub(crate) fn first_piece(&mut self) -> Result<Head, Stuck>
        ensures { Reads want headed self.old self.new result }
    {
        match self.take_after_spaces(start)? {
            Start::Piece(head) => Ok(head),
            Start::Mark => Ok(Head::Mark(self.mark()?)),
            Start::Letter(quantifier) => self.after_letter(quantifier),
        }
    }

    // The operator between two rules.
    #[tactic(auto, using(crate::proofs::Scans::operator_read))]
    pub(crate) fn operator(&mut self, bracket: Bracket) -> Result<Operator, Stuck>
        ensures { Reads (between_rules bracket) joined_by self.old self.new result }
    {
        self.take_after_spaces(|byte| joint(bracket, byte))
    }

    // The end of a bracket.
    #[tactic(auto, using(crate::proofs::Scans::closing_read))]
    pub(crate) fn closing(&mut self) -> Result<(), Stuck>
        ensures { Reads in_bracket closed self.old self.new result }
    {
        self.take_after_spaces(close)
    }
}
