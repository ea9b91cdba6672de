// Making a table of its parts, where these are a system. The bound on the states
// stands at each of the three tests: a struct for three short tests would say it no plainer.
// They fold over a row to its end: with a way out before it, one place is tested in a turn of the loop.
ghost use Rattle.std.specs.Prelude.{◌≡◌, ◌<◌, ◌≤◌, Some, None, MatchResult};
ghost use Rattle.systems.specs.Below.{all_below, any_below};
ghost use Rattle.systems.specs.Tabled.{leads_on, start_at, written_model, written_fault};
ghost use Rattle.systems.specs.Written.{table_model};

use super::Table;
use crate::kinds::{Colour, Step};
use crate::limits::are_in_range;
use crate::refusals::Refusal;

// Whether a state has a possible step out.
fn goes_on(steps: &[Step; 16384], states: usize, state: usize) -> bool
    requires { (states ≤ 128) × (state < states) }
    ensures { result ≡ leads_on steps.now states state }
{
    (0..states).fold(
        false,
        |found, to| found | steps[state * 128 + to].is_possible(),
    )
}

// Whether each state has a possible step out.
fn all_go_on(steps: &[Step; 16384], states: usize) -> bool
    requires { states ≤ 128 }
    ensures { result ≡ all_below (leads_on steps.now states) states }
{
    (0..states).all(|state| goes_on(steps, states, state))
}

// Whether some state is a start.
fn any_start(starts: &[bool; 128], states: usize) -> bool
    requires { states ≤ 128 }
    ensures { result ≡ any_below (start_at starts.now) states }
{
    (0..states).fold(false, |found, state| found | starts[state])
}

impl Table {
    // The table of these arrays: refused where a count is out of range (2), a state has no step
    // out (6) or there is no start (7).
    pub fn from_parts(
        states: usize,
        marks: usize,
        steps: [Step; 16384],
        values: [Colour; 2048],
        starts: [bool; 128],
    ) -> Result<Table, Refusal>
        ensures { MatchResult result (λ t. (written_fault states marks steps starts ≡ None) × (table_model t ≡ written_model states marks steps values starts)) (λ e. written_fault states marks steps starts ≡ Some e) }
    {
        if !are_in_range(states, marks) {
            return Err(Refusal::CountRange);
        }
        if !all_go_on(&steps, states) {
            return Err(Refusal::NoStepOut);
        }
        if !any_start(&starts, states) {
            return Err(Refusal::NoStart);
        }
        Ok(Table {
            states,
            marks,
            steps,
            values,
            starts,
        })
    }
}
