// The calls that change a study, and making one. Each says itself what it leaves: the system below, and
// after a refusal the whole study. A caller knows of a call what its clauses say.
ghost use Rattle.std.specs.Prelude.{◌≡◌};
ghost use Rattle.groupings.specs.Grouped.{KeptIfRefused};
ghost use Rattle.law.specs.Ledgers.{fresh};
ghost use Rattle.law.specs.Calls.{Agrees, set_rule, regroup, split};
ghost use Rattle.study.specs.Studies.{system_of, below, ledger, plain_reply, split_reply, HandedBack};

use super::Study;
use crate::slip::Slip;
use groupings::Grouping;
use rules::Rule;
use systems::{Refusal, System};

impl<S: System> Study<S> {
    // All states of a system in group 0, and the rule `1`. It is never refused.
    pub fn new(system: S) -> Study<S>
        ensures below { system_of result ≡ system }
        ensures ledger { ledger S.System.meaning result ≡ fresh (S.System.meaning system) }
    {
        Study {
            grouping: Grouping::whole(system),
            rule: Rule::one(),
        }
    }

    // Replaces the rule: refused where one of its marks is not below the number of marks (12).
    pub fn set_rule(&mut self, rule: Rule) -> Result<(), Refusal>
        ensures agrees { Agrees (below S.System.meaning self.old) (ledger S.System.meaning self.old) (set_rule rule) (plain_reply result) (ledger S.System.meaning self.new) }
        ensures below { system_of self.new ≡ system_of self.old }
        ensures kept { KeptIfRefused result self.old self.new }
    {
        if !rule.marks_below(self.grouping.marks()) {
            return Err(Refusal::MarkBeyondSystem);
        }
        self.rule = rule;
        Ok(())
    }

    // Replaces the groups by a list of them: refused where there is not one byte for each state, each
    // below their number (13), or a number up to the largest is not used (14).
    pub fn regroup(&mut self, groups: &[u8]) -> Result<(), Refusal>
        ensures agrees { Agrees (below S.System.meaning self.old) (ledger S.System.meaning self.old) (regroup groups.now) (plain_reply result) (ledger S.System.meaning self.new) }
        ensures below { system_of self.new ≡ system_of self.old }
        ensures kept { KeptIfRefused result self.old self.new }
    {
        self.grouping.regroup(groups)
    }

    // Uses up a slip. Members of its group that answer as the lowest-numbered one does, by their mark or
    // their strength into the target, stay; all others become the last group. Refused where the group or
    // its mark or target does not exist (18), or all members answer alike (19); then the slip comes back. By
    // cases, since the slip moves in both.
    pub fn split(&mut self, slip: Slip) -> Result<(), (Refusal, Slip)>
        ensures agrees { Agrees (below S.System.meaning self.old) (ledger S.System.meaning self.old) (split slip.reason) (split_reply result) (ledger S.System.meaning self.new) }
        ensures below { system_of self.new ≡ system_of self.old }
        ensures kept { HandedBack slip self.old self.new result }
    {
        match self.grouping.split_by(slip.reason()) {
            Ok(()) => {
                slip.spend();
                Ok(())
            }
            Err(refusal) => Err((refusal, slip)),
        }
    }
}
