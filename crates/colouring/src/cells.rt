// Reading and writing one place of a column.
ghost use Rattle.std.specs.Prelude.{◌≡◌, ◌^◌, ◌<◌, length, slice_set};
ghost use Rattle.systems.specs.Numbers.{colour_number};
ghost use Rattle.colouring.specs.passes.Bytes.{flipped as flipped_of};
ghost use Rattle.colouring.specs.passes.Columns.{cell, column};

use crate::columns::Columns;
use crate::truth::{decode, flipped};
use systems::Colour;

impl Columns<'_> {
    // The number of a clause's position at a state.
    fn place(&self, clause: usize, state: usize) -> usize
        requires { cell self.now clause state < 2 ^ 64 }
        ensures { result ≡ cell self.now clause state }
    {
        state * self.clauses + clause
    }

    pub(crate) fn read(&self, board: &[u8], clause: usize, state: usize) -> Colour
        requires { cell self.now clause state < length board.now }
        ensures { result ≡ column self.now board.now clause state }
    {
        flipped(self.negated, decode(board[self.place(clause, state)]))
    }

    // Writes the clause's colour at a state.
    pub(crate) fn write(&self, board: &mut [u8], state: usize, v: Colour)
        requires { cell self.now self.now.whole state < length board.old }
        ensures { board.new ≡ slice_set board.old (cell self.now self.now.whole state) (colour_number (flipped_of self.now.negated v)) }
    {
        board[self.position(state)] = u8::from(flipped(self.negated, v));
    }

    // The number of the clause's position at a state.
    pub(crate) fn position(&self, state: usize) -> usize
        requires { cell self.now self.now.whole state < 2 ^ 64 }
        ensures { result ≡ cell self.now self.now.whole state }
    {
        self.place(self.whole, state)
    }
}
