// Reading the counts and the contents of a table file.
ghost use Rattle.std.specs.Prelude.{◌≡◌, ◌+◌, ◌*◌, ◌<◌, ◌≤◌, true, false, length, Some, None, MatchResult};
ghost use Rattle.systems.specs.Faults.{without_place};
ghost use Rattle.systems.specs.Tabled.{InRange};
ghost use Rattle.systems.specs.declared.refusals.Refusal.TheVariants.{ContentsEntry};
ghost use Rattle.tables.specs.Conditions.{placed, apart, header_fault, contents_fault};
ghost use Rattle.tables.specs.Files.{word, offset, states_of, marks_of, body};

use crate::bodies::Bodies;
use std::ops::Range;
use systems::limits::are_in_range;
use systems::{Fault, Refusal};

const MIN_LENGTH: usize = 14;

// The most bytes that a file may have.
pub const MAX_LENGTH: usize = 32768;

// Two bytes of the file, the high one first.
fn word_at(bytes: &[u8], at: usize) -> u16
    requires { at + 1 < length bytes.now }
    ensures { result ≡ word bytes.now at }
{
    u16::from_be_bytes([bytes[at], bytes[at + 1]])
}

// Whether two bodies share no byte.
fn are_apart(a: &Range<usize>, b: &Range<usize>) -> bool
    ensures { (m n : _) → a.now.end ≡ a.now.start + m → b.now.end ≡ b.now.start + n → result ≡ apart a.now.start m b.now.start n }
{
    a.end <= b.start || b.end <= a.start
}

// A file whose length and whose counts of states and marks are in range.
#[derive(Clone, Copy)]
pub(crate) struct Front<'a> {
    bytes: &'a [u8],
    states: usize,
    marks: usize,
    ghost long: { 14 ≤ length bytes.now },
    ghost ranged: { InRange states marks },
}

impl<'a> Front<'a> {
    pub(crate) fn of(bytes: &'a [u8]) -> Result<Front<'a>, Fault>
        ensures { MatchResult result (λ f. (header_fault bytes.now ≡ None) × (f.bytes.now ≡ bytes.now) × (f.states ≡ states_of bytes.now) × (f.marks ≡ marks_of bytes.now)) (λ e. header_fault bytes.now ≡ Some e) }
    {
        if !(MIN_LENGTH..=MAX_LENGTH).contains(&bytes.len()) {
            return Err(Refusal::FileLength.into());
        }
        let states = usize::from(bytes[0]);
        let marks = usize::from(bytes[1]);
        if !are_in_range(states, marks) {
            return Err(Refusal::CountRange.into());
        }
        Ok(Front {
            bytes,
            states,
            marks,
        })
    }

    // Where the body of an entry of the contents lies, if the entry is as it should be. Entries go by
    // number and not by name, since where one stands in the file is reckoned from its number.
    fn place(&self, entry: usize, len: usize) -> Result<Range<usize>, Fault>
        requires { (entry < 3) × (len < 65536) }
        ensures { MatchResult result (λ r. (placed self.now.bytes.now entry len ≡ true) × (r.start ≡ offset self.now.bytes.now entry) × (r.end ≡ offset self.now.bytes.now entry + len)) (λ e. (placed self.now.bytes.now entry len ≡ false) × (e ≡ without_place ContentsEntry)) }
    {
        let offset = usize::from(word_at(self.bytes, 2 + 4 * entry));
        let size = usize::from(word_at(self.bytes, 4 + 4 * entry));
        if size != len || offset < MIN_LENGTH || offset + len > self.bytes.len() {
            return Err(Refusal::ContentsEntry.into());
        }
        Ok(offset..offset + len)
    }

    // The bodies, where each lies in the file and they share no byte.
    pub(crate) fn bodies(&self) -> Result<Bodies<'a>, Fault>
        ensures { MatchResult result (λ b. (contents_fault self.now.bytes.now self.now.states self.now.marks ≡ None) × (b.states ≡ self.now.states) × (b.marks ≡ self.now.marks) × (b.steps.now ≡ body self.now.bytes.now 0 (self.now.states * self.now.states)) × (b.values.now ≡ body self.now.bytes.now 1 (self.now.states * self.now.marks)) × (b.starts.now ≡ body self.now.bytes.now 2 self.now.states)) (λ e. contents_fault self.now.bytes.now self.now.states self.now.marks ≡ Some e) }
    {
        let (states, marks) = (self.states, self.marks);
        let steps = self.place(0, states * states)?;
        let values = self.place(1, states * marks)?;
        let starts = self.place(2, states)?;
        if !are_apart(&steps, &values)
            || !are_apart(&steps, &starts)
            || !are_apart(&values, &starts)
        {
            return Err(Refusal::BodiesOverlap.into());
        }
        Ok(Bodies {
            states,
            marks,
            steps: &self.bytes[steps],
            values: &self.bytes[values],
            starts: &self.bytes[starts],
        })
    }
}
