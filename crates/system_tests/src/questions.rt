// Questions that every kind of system refuses alike.
use systems::System;

// The numbers of the refusals of one question for each limit, where `states` and `marks` are the first
// numbers that the system does not have.
pub(crate) fn refusals<S: System>(system: &S, states: usize, marks: usize) -> [Option<u8>; 5] {
    [
        system.step(states, 0).err().map(u8::from),
        system.step(0, states).err().map(u8::from),
        system.mark(states, 0).err().map(u8::from),
        system.mark(0, marks).err().map(u8::from),
        system.start(states).err().map(u8::from),
    ]
}
