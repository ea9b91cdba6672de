// What waits while a cause is sought.
use colours::Position;

// A position with the one before it.
#[derive(Clone, Copy, PartialEq, Eq, Debug)]
pub struct Link {
    pub at: Position,
    pub from: Position,
}
