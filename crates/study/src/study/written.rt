// What the calls that ask a study colour.
ghost use Rattle.std.specs.Prelude.{◌≡◌, ◌<◌, ◌≤◌, All, Any, IfErr, OnErr, OnOk};
ghost use Rattle.systems.specs.declared.refusals.Refusal.TheVariants.{WorkspaceTooSmall};
ghost use Rattle.systems.specs.Written.{table_model};
ghost use Rattle.rules.specs.Rules.{clause_list};
ghost use Rattle.colours.specs.Boards.{positions};

use rules::Rule;
use systems::{Refusal, System, Table};

// The groups of a study written out as a table, and the rule that is coloured on it.
#[derive(Drop)]
pub(crate) struct Written {
    pub(crate) table: Table,
    pub(crate) rule: Rule,
}

impl Written {
    fn positions(&self) -> usize
        ensures { result ≡ positions (table_model self.now.table) (clause_list self.now.rule) }
    {
        self.table.states() * self.rule.count()
    }

    // Refused where a workspace has fewer places than there are positions (15).
    pub(crate) fn fits(&self, rooms: &[usize]) -> Result<(), Refusal>
        ensures room { OnOk result (All (λ room. positions (table_model self.now.table) (clause_list self.now.rule) ≤ room) rooms.now) }
        ensures refused { IfErr result (λ e. e ≡ WorkspaceTooSmall) }
        ensures small { OnErr result (Any (λ room. room < positions (table_model self.now.table) (clause_list self.now.rule)) rooms.now) }
    {
        let positions = self.positions();
        if rooms.iter().all(|room| positions <= *room) {
            Ok(())
        } else {
            Err(Refusal::WorkspaceTooSmall)
        }
    }
}
