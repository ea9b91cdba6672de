// How much of a system is known.
use std::fmt;

mod tallies;

// The steps over all pairs of states and the marks over all states, by their kinds.
#[derive(Clone, Copy)]
pub struct Census {
    pub states: usize,
    pub marks: usize,
    pub starts: usize,
    pub steps_sure: usize,
    pub steps_unsure: usize,
    pub steps_absent: usize,
    pub marks_t: usize,
    pub marks_f: usize,
    pub marks_unknown: usize,
    // Whether there is no unsure step and no unknown mark.
    pub exact: bool,
}

// Four lines, the last without its end.
impl fmt::Display for Census {
    fn fmt<W: fmt::Write>(&self, f: &mut fmt::Formatter<W>) -> fmt::Result {
        writeln!(
            f,
            "states {} marks {} starts {}",
            self.states, self.marks, self.starts
        )?;
        writeln!(
            f,
            "steps sure {} unsure {} none {}",
            self.steps_sure, self.steps_unsure, self.steps_absent
        )?;
        writeln!(
            f,
            "marks T {} F {} unknown {}",
            self.marks_t, self.marks_f, self.marks_unknown
        )?;
        f.write_str(if self.exact { "exact" } else { "partly known" })
    }
}
