// What a cause hands out.
ghost use Rattle.std.specs.Prelude.{◌≡◌};

use colours::Reason;

// What leaves a rule undecided: a group with an unknown mark or with the target of an unsure step. Only
// `cause` makes one, and only a split or `file` uses it up. It has no Drop, so it may not be let go: whoever
// asked what is missing has to settle it.
pub struct Slip {
    reason: Reason,
}

impl Slip {
    pub(crate) fn of(reason: Reason) -> Slip
        ensures { result.reason ≡ reason }
    {
        Slip { reason }
    }

    // The group, and its mark or target.
    pub fn reason(&self) -> Reason
        ensures { result ≡ self.now.reason }
    {
        self.reason
    }

    // Takes a slip apart.
    pub(crate) fn spend(self) -> Reason
        ensures { result ≡ self.reason }
    {
        let Slip { reason } = self;
        reason
    }
}
