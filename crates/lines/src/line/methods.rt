// How a line is taken in, byte by byte.
ghost use Rattle.std.specs.Prelude.{◌≡◌, ℕ, List, [], ◌∷◌, ◌++◌, Decides};
ghost use Rattle.lines.specs.Lines.{line_bytes, Keeps};

use super::{LineBuffer, MAX_KEPT};

impl LineBuffer {
    // The start of a line.
    pub fn new() -> LineBuffer
        ensures { Keeps result [] }
    {
        LineBuffer {
            bytes: [0; MAX_KEPT],
            count: 0,
        }
    }

    // The line has one byte more.
    #[tactic(auto, using(crate::proofs::Lines::push_kept, crate::proofs::Lines::push_full))]
    pub fn push(&mut self, byte: u8)
        ensures { (line : List ℕ) → Keeps self.old line → Keeps self.new (line ++ byte ∷ []) }
    {
        if self.count < MAX_KEPT {
            self.bytes[self.count] = byte;
            self.count += 1;
        }
    }

    // The next line begins.
    pub fn clear(&mut self)
        ensures { Keeps self.new [] }
    {
        self.count = 0;
    }

    // Whether the line has no byte yet.
    pub fn is_empty(&self) -> bool
        ensures { Decides result (line_bytes self.now ≡ []) }
    {
        self.count == 0
    }

    // The bytes that are kept.
    pub fn text(&self) -> &[u8]
        ensures { result.now ≡ line_bytes self.now }
    {
        &self.bytes[..self.count]
    }
}
