// A system with the groups of its states.
ghost use Rattle.std.specs.Prelude.{◌≡◌, length};
ghost use Rattle.groupings.specs.Memberships.{groups_of};

use crate::members::Membership;
use systems::System;

// The membership is for just the states of the system.
#[derive(Drop)]
pub(super) struct Fitted<'a, S: System> {
    pub(super) system: &'a S,
    pub(super) members: Membership,
    ghost fits: { length (groups_of members) ≡ (S.meaning system.now).states },
}
