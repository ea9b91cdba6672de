// Reading a rule's text.
ghost use Rattle.rules.specs.Reading.{Answers};

use crate::clause_list::MAX_CLAUSES;
use crate::reader::Reader;
use crate::rule::Rule;
use systems::{Fault, Refusal};

const MAX_LENGTH: usize = 512;

const MAX_NESTING: usize = 32;

// The rule that a text spells, or why it is refused.
pub fn read(text: &[u8]) -> Result<Rule, Fault>
    ensures { Answers text.now result }
{
    if text.is_empty() || text.len() > MAX_LENGTH {
        return Err(Refusal::RuleLength.into());
    }
    let mut reader = Reader::new(text);
    let nesting = reader.whole().map_err(|stuck| Fault::at(
        Refusal::NotARule,
        text.len() - stuck.left,
    ))?;
    if nesting > MAX_NESTING {
        return Err(Refusal::NestingDepth.into());
    }
    if reader.list.count > MAX_CLAUSES {
        return Err(Refusal::TooManyClauses.into());
    }
    Ok(Rule {
        clauses: reader.list.clauses,
        count: reader.list.count,
        nesting,
    })
}
