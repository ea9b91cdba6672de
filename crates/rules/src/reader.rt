// The recursive reader of rules.
ghost use Rattle.std.specs.Prelude.{◌≡◌, ◌+◌, ◌*◌, ◌^◌, ◌<◌, ◌≤◌, length, []};
ghost use Rattle.rules.specs.reader.Filling.{kept};
ghost use Rattle.rules.specs.reader.Parts.{ReadsPart, ReadsWhole};

use crate::clause_list::ClauseList;
use crate::negation::Dual;
use crate::pieces::{Head, Stuck};
use crate::scan::Rest;
use crate::syntax::Clause;

// What is left of a text, and the clauses of what was read.
#[derive(Drop)]
pub struct Reader<'a> {
    rest: Rest<'a>,
    pub(crate) list: ClauseList,
}

impl<'a> Reader<'a> {
    pub(crate) fn new(text: &'a [u8]) -> Reader<'a>
        ensures rest { result.rest ≡ text.now }
        ensures kept { kept result.list ≡ [] }
        ensures count { result.list.count ≡ 0 }
    {
        Reader {
            rest: Rest::new(text),
            list: ClauseList::empty(),
        }
    }

    // Reads a rule, negated or not: its nesting.
    fn part(&mut self, negated: bool) -> Result<usize, Stuck>
        requires { self.old.list.count + 2 * length self.old.rest < 2 ^ 32 }
        ensures { ReadsPart negated self.old self.new result }
    {
        match self.rest.first_piece()? {
            Head::Constant(value) => {
                self.list.put(Clause::Constant(value.under(negated)));
                Ok(1)
            }
            Head::Mark(mark) => {
                self.list.put(Clause::Mark { mark, negated });
                Ok(1)
            }
            Head::Prefix(prefix) => {
                let first = self.list.count;
                self.list.extend(prefix.leading(negated));
                let nesting = self.part(prefix.negates(negated))?;
                let last = self.list.count - 1;
                self.list.extend(prefix.trailing(negated, first, last));
                Ok(nesting + 1)
            }
            Head::Open(bracket) => {
                let left_nesting = self.part(negated)?;
                let left = self.list.count - 1;
                let operator = self.rest.operator(bracket)?.under(negated);
                let right_nesting = self.part(negated)?;
                let right = self.list.count - 1;
                self.rest.closing()?;
                self.list.put(Clause::Pair {
                    operator,
                    left,
                    right,
                });
                Ok(left_nesting.max(right_nesting) + 1)
            }
        }
    }

    // Reads the whole text: the nesting of the rule that it is.
    pub(crate) fn whole(&mut self) -> Result<usize, Stuck>
        requires { self.old.list.count + 2 * length self.old.rest < 2 ^ 32 }
        ensures { ReadsWhole self.old self.new result }
    {
        let nesting = self.part(false)?;
        let end = self.rest.without_spaces();
        if end.is_empty() {
            Ok(nesting)
        } else {
            Err(end.stuck())
        }
    }
}
