// The counts and the three bodies of a table file, read where the bytes lie.
ghost use Rattle.std.specs.Prelude.{◌≡◌, ℕ, ◌*◌, ◌<◌, ◌≤◌, Bool, length, nat_lt};
ghost use Rattle.std.specs.List.{list_all, list_any};
ghost use Rattle.systems.specs.Below.{all_below};
ghost use Rattle.systems.specs.Tabled.{InRange};
ghost use Rattle.tables.specs.Conditions.{all_listed, goes, any_start};

use systems::{Colour, Step};

#[derive(Clone, Copy)]
pub(crate) struct Bodies<'a> {
    pub(crate) states: usize,
    pub(crate) marks: usize,
    // A row for each state.
    pub(crate) steps: &'a [u8],
    pub(crate) values: &'a [u8],
    pub(crate) starts: &'a [u8],
    ghost ranged: { InRange states marks },
    ghost steps_fill: { length steps.now ≡ states * states },
    ghost values_fill: { length values.now ≡ states * marks },
    ghost starts_fill: { length starts.now ≡ states },
}

// Whether each byte passes a test. There is no way out before the last, so that one turn of the loop tests many bytes.
fn all_pass<F: Fn(u8) -> bool>(body: &[u8], test: F) -> bool
    requires { F.IsAlwaysCallable test }
    ensures { (t : ℕ → Bool) → ((b : ℕ) (r : Bool) → F.post test b r → r ≡ t b) → result ≡ list_all t body.now }
{
    body.iter().fold(true, |all, byte| all & test(*byte))
}

// Whether a row of the steps has a byte that is not 0: by its number, as the definition has it, since whether each
// byte is listed is another condition.
fn has_step(row: &[u8]) -> bool
    ensures { result ≡ list_any (λ b. nat_lt 0 b) row.now }
{
    row.iter().fold(false, |found, step| found | (*step != 0))
}

impl Bodies<'_> {
    // Whether each byte is one of those that are listed for its body.
    pub(crate) fn is_listed(&self) -> bool
        ensures { result ≡ all_listed self.now.steps.now self.now.values.now self.now.starts.now }
    {
        all_pass(self.steps, |step| Step::try_from(step).is_ok())
            && all_pass(self.values, |value| Colour::try_from(value).is_ok())
            && all_pass(self.starts, |start| start <= 1)
    }

    // Whether the row of each state has a byte that is not 0.
    pub(crate) fn all_go(&self) -> bool
        ensures { result ≡ all_below (goes self.now.steps.now self.now.states) self.now.states }
    {
        self.steps.chunks_exact(self.states).all(has_step)
    }

    // Whether some state is a start. A `contains` has so many branches that the compiler no longer sees through what
    // stands around it, and copies a table more often.
    pub(crate) fn has_start(&self) -> bool
        ensures { result ≡ any_start self.now.starts.now }
    {
        self.starts
            .iter()
            .fold(false, |found, start| found | (*start == 1))
    }
}
