// What a chain of undecided positions is made of, and what it ends in.

// A group with the number of a clause.
#[derive(Clone, Copy, PartialEq, Eq, Debug)]
pub struct Position {
    pub group: usize,
    pub clause: usize,
}

// What leaves a rule undecided at a group: one of its marks, or its step to a group.
#[derive(Clone, Copy, PartialEq, Eq, Debug)]
pub enum Reason {
    UnknownMark { group: usize, mark: usize },
    UnsureStep { group: usize, target: usize },
}
