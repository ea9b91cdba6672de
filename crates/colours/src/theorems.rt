// One function for each theorem; its contract is the statement, and the proof stands in proofs/. Called, they do nothing.
ghost use Rattle.colours.specs.Theorems.{AbstractionPreserves, AgreeingModelsColourAlike, ByTruthOrder, ChainsPartMembers, ConsistentEverywhere, ContraryExchanges, GroupsTell, LooksOnlyAhead, NoSearchRunsDry, OneColour, OneVerdict, ReleaseIsGreatest, SingleMembersDecide, UndecidedHasAChain, UndecidedVerdictHasACause, UnknownPartsMembers, UntilIsLeast, VerdictsTell};

// No rule is both T and F at a state.
pub fn consistent()
    ensures { ConsistentEverywhere }
{}

// At every state of a model a rule has exactly one colour, the computed one.
pub fn one_colour()
    ensures { OneColour }
{}

// A rule has exactly one verdict, the computed one.
pub fn one_verdict()
    ensures { OneVerdict }
{}

// A rule negated, the negation moved inward, has T and F exchanged.
pub fn contrary_exchanges()
    ensures { ContraryExchanges }
{}

// A T or F of a model that abstracts another is the colour in the other.
pub fn abstraction_preserves()
    ensures { AbstractionPreserves }
{}

// A T or F at a group is the colour at each of its members.
pub fn groups_tell()
    ensures { GroupsTell }
{}

// A verdict T or F over groups is the verdict below.
pub fn verdicts_tell()
    ensures { VerdictsTell }
{}

// Models that agree in range have the same colours and verdicts.
pub fn agreeing_models_colour_alike()
    ensures { AgreeingModelsColourAlike }
{}

// From every undecided position a chain leads to an unknown mark or an unsure step.
pub fn undecided_has_a_chain()
    ensures { UndecidedHasAChain }
{}

// An undecided verdict has a cause: a chain from the rule at the lowest start where it is undecided.
pub fn undecided_verdict_has_a_cause()
    ensures { UndecidedVerdictHasACause }
{}

// A set of undecided positions that is closed under going on, and in which no chain can end, is empty.
pub fn no_search_runs_dry()
    ensures { NoSearchRunsDry }
{}

// Over an exact model an unknown mark or an unsure step of a group parts its members: two answer differently.
pub fn unknown_parts_members()
    ensures { UnknownPartsMembers }
{}

// Over an exact model the end of a chain over groups parts the members of its group.
pub fn chains_part_members()
    ensures { ChainsPartMembers }
{}

// Over an exact model, where no group has two members, nothing is undecided.
pub fn single_members_decide()
    ensures { SingleMembersDecide }
{}

// & and AX are meets in truth order, | and EX joins.
pub fn by_truth_order()
    ensures { ByTruthOrder }
{}

// The colours of U are the least solution of "q, or r and the next".
pub fn until_is_least()
    ensures { UntilIsLeast }
{}

// The colours of V are the greatest solution of "q, and r or the next".
pub fn release_is_greatest()
    ensures { ReleaseIsGreatest }
{}

// The value of a state depends on those to which it has a possible step: only states with a step to a changed one are looked at again.
pub fn looks_only_ahead()
    ensures { LooksOnlyAhead }
{}
