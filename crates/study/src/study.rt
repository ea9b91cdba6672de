// A study.
use groupings::Grouping;
use rules::Rule;

mod asking;
mod changing;
mod written;

// A system, the groups of its states, and a rule. A rule with a mark that the system does not have counts
// as `1`: no call makes such a study, and the type could say so only with the bound `S: System` wherever it is named.
#[derive(Drop)]
pub struct Study<S> {
    grouping: Grouping<S>,
    rule: Rule,
}
