// The groups of a system's states.
ghost use Rattle.groupings.specs.Members.{Numbered, Sized};

mod listing;
mod lookup;
mod moving;

// Each state has the number of its group, each number is below the number of groups, and each
// group has a member. Places beyond the number of states are not used; an array has them, so that
// making groups never fails for want of memory, and no `ArrayVec`, which is not `Copy`.
#[derive(Clone, Copy)]
pub struct Membership {
    numbers: [u8; 128],
    states: usize,
    groups: usize,
    ghost sized: { Sized numbers states groups },
    ghost numbered: { Numbered numbers states groups },
}
