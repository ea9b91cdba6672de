// What is proved of rules and their texts beside what the calls promise. Each function stands for the
// theorem in its contract, and does nothing.
ghost use Rattle.rules.specs.Theorems.{SpelledOnce, AnsweredExactly, CutAlike, EveryRule, ListedWhole, ReadFormula, MarksListed, MarksOfClauses, Places, MovedInward};

// A text spells at most one rule.
#[tactic(auto, using(crate::proofs::Exact::spelled_once))]
pub fn spelled_once()
    ensures { SpelledOnce }
{}

// Each answer of `read` is given exactly where its conditions hold.
#[tactic(auto, using(crate::proofs::Exact::answered_exactly))]
pub fn answered_exactly()
    ensures { AnsweredExactly }
{}

// A line is read as its first 513 bytes are.
#[tactic(auto, using(crate::proofs::Exact::cut_alike))]
pub fn cut_alike()
    ensures { CutAlike }
{}

// In no rule does a clause use itself or a later one.
pub fn every_rule()
    ensures { EveryRule }
{}

// The clauses of a formula stand for it, and the last is the whole.
#[tactic(auto, using(crate::proofs::Listing::listed_whole))]
pub fn listed_whole()
    ensures { ListedWhole }
{}

// A rule that was read is the formula of the tree that its text spells.
pub fn read_formula()
    ensures { ReadFormula }
{}

// The marks of a formula are those of its clauses.
#[tactic(auto, using(crate::proofs::Listing::marks_listed))]
pub fn marks_listed()
    ensures { MarksListed }
{}

// The marks of every clause are among those of the list.
pub fn marks_of_clauses()
    ensures { MarksOfClauses }
{}

// Three texts are refused at the first place where no rule goes on.
#[tactic(auto, using(crate::proofs::Worked::places))]
pub fn worked_places()
    ensures { Places }
{}

// `!A(p0 U p1)` reads as `E(!p0 V !p1)`.
#[tactic(auto, using(crate::proofs::Worked::moved_inward))]
pub fn worked_negation()
    ensures { MovedInward }
{}
