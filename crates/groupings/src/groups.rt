// A system made of another one and the groups of its states.
ghost use Rattle.std.specs.Prelude.{◌≡◌, replicate};
ghost use Rattle.groupings.specs.Grouped.{groups_at, KeptIfRefused, Regrouped};
ghost use Rattle.groupings.specs.Memberships.{groups_of};

use self::fitted::Fitted;
use crate::members::Membership;
use systems::{Refusal, System};

mod answering;
mod answers;
mod fitted;
mod joining;
mod sharing;
mod splitting;
mod writing;

// The quotient of a system by its groups (an abstraction of it): its states are the groups. Where
// the membership is for another number of states than the system has, all lie in group 0.
#[derive(Drop)]
pub struct Grouping<S> {
    system: S,
    members: Membership,
}

impl<S: System> Grouping<S> {
    // All states of a system in group 0.
    pub fn whole(system: S) -> Grouping<S>
        ensures below { result.system ≡ system }
        ensures fitting { groups_of result.members ≡ replicate (S.System.meaning system).states 0 }
        ensures groups { groups_at S.System.meaning result ≡ replicate (S.System.meaning system).states 0 }
    {
        let members = Membership::whole(system.states());
        Grouping { system, members }
    }

    // The system below.
    pub fn system(&self) -> &S
        ensures { result.now ≡ self.now.system }
    {
        &self.system
    }

    // The groups of its states.
    pub fn members(&self) -> Membership
        ensures { groups_of result ≡ groups_at S.System.meaning self.now }
    {
        self.members.fitted(self.system.states())
    }

    // The system below with the groups of its states.
    fn fitted(&self) -> Fitted<'_, S>
        ensures below { result.system.now ≡ self.now.system }
        ensures groups { groups_of result.members ≡ groups_at S.System.meaning self.now }
    {
        Fitted {
            system: &self.system,
            members: self.members(),
        }
    }

    // Replaces the groups by a list of them: refused where there is not one byte for each state,
    // each below their number (13), or a number up to the largest is not used (14).
    #[tactic(auto, using(crate::proofs::Lists::refused_list))]
    pub fn regroup(&mut self, bytes: &[u8]) -> Result<(), Refusal>
        ensures below { self.new.system ≡ self.old.system }
        ensures answer { Regrouped (S.System.meaning self.old.system).states bytes.now (groups_at S.System.meaning self.new) result }
        ensures kept { KeptIfRefused result self.old self.new }
    {
        let members = Membership::from_list(self.system.states(), bytes)?;
        self.members = members;
        Ok(())
    }
}
