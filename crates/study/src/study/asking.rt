// The calls that ask a study. Each first writes its groups out as a table, and colours that.
ghost use Rattle.std.specs.Prelude.{◌≡◌, length};
ghost use Rattle.std.specs.List.{AllByRecursion};
ghost use Rattle.rules.specs.Clauses.{MarkBelow};
ghost use Rattle.rules.specs.Rules.{clause_list};
ghost use Rattle.queue.specs.Held.{room};
ghost use Rattle.law.specs.Calls.{Agrees, judge, look, cause};
ghost use Rattle.study.specs.Studies.{below, ledger, positions_of, judge_reply, look_reply, cause_reply, Lent, SoughtIn, LentToCause};
ghost use Rattle.study.specs.Written.{WrittenFor};

use super::Study;
use super::written::Written;
use crate::slip::Slip;
use colours::Position;
use engine::{Link, colour, colour_at, count_positions, find_cause, verdict};
use queue::Ring;
use rules::Rule;
use systems::{Colour, Refusal, System};

impl<S: System> Study<S> {
    // The rule, or `1` where it has a mark that the system does not have.
    fn fitted_rule(&self) -> Rule
        ensures is { clause_list result ≡ (ledger S.System.meaning self.now).rule }
        ensures known { AllByRecursion (MarkBelow (below S.System.meaning self.now).marks) (clause_list result) }
    {
        if self.rule.marks_below(self.grouping.marks()) {
            self.rule
        } else {
            Rule::one()
        }
    }

    fn written(&self) -> Written
        ensures { WrittenFor (below S.System.meaning self.now) (ledger S.System.meaning self.now) result }
    {
        Written {
            table: self.grouping.write_out(),
            rule: self.fitted_rule(),
        }
    }

    // Colours the first G × C bytes of a board, for G groups and C clauses of the rule; answers the verdict
    // and the numbers of T, F and undecided positions, as the law lists them in a reply. Refused where the
    // board or the queue has fewer than G × C places (15).
    pub fn judge(
        &self,
        board: &mut [u8],
        queue: &mut Ring<'_, usize>,
    ) -> Result<(Colour, usize, usize, usize), Refusal>
        ensures agrees { Agrees (below S.System.meaning self.now) (ledger S.System.meaning self.now) (judge (length board.old) (room queue.old)) (judge_reply (positions_of S.System.meaning self.now) board.new result) (ledger S.System.meaning self.now) }
        ensures lent { Lent (positions_of S.System.meaning self.now) board.old queue.old board.new queue.new result }
    {
        let written = self.written();
        let (table, rule) = (&written.table, &written.rule);
        colour(table, rule, board, queue)?;
        let tally = count_positions(table, rule, board);
        Ok((
            verdict(table, rule, board),
            tally.t,
            tally.f,
            tally.undecided,
        ))
    }

    // Colours like judge; answers the colour of a clause at the group of a state. Refused where a workspace
    // is too small (15), or else there is no such state or clause (16).
    pub fn look(
        &self,
        state: usize,
        clause: usize,
        board: &mut [u8],
        queue: &mut Ring<'_, usize>,
    ) -> Result<Colour, Refusal>
        ensures agrees { Agrees (below S.System.meaning self.now) (ledger S.System.meaning self.now) (look (length board.old) (room queue.old) state clause) (look_reply (positions_of S.System.meaning self.now) board.new result) (ledger S.System.meaning self.now) }
        ensures lent { Lent (positions_of S.System.meaning self.now) board.old queue.old board.new queue.new result }
    {
        let written = self.written();
        written.fits(&[board.len(), queue.capacity()])?;
        let (table, rule) = (&written.table, &written.rule);
        let members = self.grouping.members();
        if state >= members.states() || clause >= rule.count() {
            return Err(Refusal::NoSuchPosition);
        }
        colour(table, rule, board, queue)?;
        let shown = colour_at(table, rule, board, members.group_of(state), clause);
        Ok(shown.unwrap())
    }

    // Colours like judge; hands out a slip, in which a chain from the lowest undecided start ends, and tells
    // how long the chain is. It stands in the first places of the chain list. Refused where a workspace is
    // too small (15), or else the verdict is T or F (17), which leaves the board coloured.
    pub fn cause(
        &self,
        board: &mut [u8],
        queue: &mut Ring<'_, usize>,
        links: &mut Ring<'_, Link>,
        chain: &mut [Option<Position>],
    ) -> Result<(Slip, usize), Refusal>
        ensures agrees { Agrees (below S.System.meaning self.now) (ledger S.System.meaning self.now) (cause (length board.old) (room queue.old) (room links.old) (length chain.old)) (cause_reply (positions_of S.System.meaning self.now) board.new chain.new result) (ledger S.System.meaning self.now) }
        ensures lent { LentToCause (positions_of S.System.meaning self.now) board.old queue.old board.new queue.new result }
        ensures sought { SoughtIn links.old chain.old links.new chain.new result }
    {
        let written = self.written();
        written.fits(&[board.len(), queue.capacity(), links.capacity(), chain.len()])?;
        let (table, rule) = (&written.table, &written.rule);
        colour(table, rule, board, queue)?;
        if verdict(table, rule, board) != Colour::Undecided {
            return Err(Refusal::VerdictDecided);
        }
        let (reason, length) = find_cause(table, rule, board, links, chain).unwrap();
        Ok((Slip::of(reason), length))
    }
}
