// A membership from the list of the states' groups.
ghost use Rattle.std.specs.Prelude.{◌≡◌, ◌≤◌, ◌==◌, length, take};
ghost use Rattle.std.specs.List.{list_any};
ghost use Rattle.systems.specs.Below.{all_below};
ghost use Rattle.groupings.specs.Members.{largest};
ghost use Rattle.groupings.specs.Memberships.{Listed};

use super::Membership;
use systems::{MAX_STATES, Refusal};

// The largest byte, 0 where there is none.
fn largest(bytes: &[u8]) -> usize
    ensures { result ≡ largest bytes.now }
{
    usize::from(bytes.iter().copied().max().unwrap_or(0))
}

// Whether one of the bytes is the number of this group. It goes on to the last byte, since with a way out before
// it the compiler compares one byte at a time, and a list of 128 took two thirds longer.
fn is_used(bytes: &[u8], group: usize) -> bool
    ensures { result ≡ list_any (λ b. b == group) bytes.now }
{
    let mut used = false;
    for byte in bytes {
        used |= usize::from(*byte) == group;
    }
    used
}

// Whether each of so many groups is used.
fn all_used(bytes: &[u8], groups: usize) -> bool
    ensures { result ≡ all_below (λ g. list_any (λ b. b == g) bytes.now) groups }
{
    (0..groups).all(|group| is_used(bytes, group))
}

// The bytes in the first places of an array.
fn copied(bytes: &[u8]) -> [u8; 128]
    requires { length bytes.now ≤ 128 }
    ensures { take (length bytes.now) result ≡ bytes.now }
{
    let mut numbers = [0; 128];
    numbers[..bytes.len()].copy_from_slice(bytes);
    numbers
}

impl Membership {
    // The membership of a list of the groups of so many states: refused where there are not so
    // many bytes, each below their number (13), or a number up to the largest is not used (14).
    // A number of states that no system has is refused with 13.
    pub fn from_list(states: usize, bytes: &[u8]) -> Result<Membership, Refusal>
        ensures { Listed states bytes.now result }
    {
        if !(1..=MAX_STATES).contains(&states) || bytes.len() != states {
            return Err(Refusal::GroupList);
        }
        let last = largest(bytes);
        if last >= states {
            return Err(Refusal::GroupList);
        }
        if !all_used(bytes, last + 1) {
            return Err(Refusal::UnusedGroup);
        }
        Ok(Membership {
            numbers: copied(bytes),
            states,
            groups: last + 1,
        })
    }
}
