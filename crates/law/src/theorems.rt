// What is proved of runs: one function for each theorem, whose contract is the statement. Called, they do nothing; the proofs stand in proofs/.
ghost use Rattle.law.specs.Theorems.{RunsKeepLaws, NewRunsKeepLaws, RepliesDetermined, OneRun, HasACause, Answerable, EveryListRuns, RunsGrow};

// Every run from a sound ledger keeps the laws: truth, no contradiction, cause, progress.
pub fn runs_keep_laws()
    ensures { RunsKeepLaws }
{}

// The ledger of a new study is sound, so that every run of a new study keeps the laws.
pub fn new_runs_keep_laws()
    ensures { NewRunsKeepLaws }
{}

// The ledger and the call fix the reply, but for the chain of a cause, and the ledger after it.
pub fn replies_determined()
    ensures { RepliesDetermined }
{}

// The calls of a run fix its ledgers, and its replies but for chains.
pub fn one_run()
    ensures { OneRun }
{}

// Every call has a reply that agrees with the ledger.
pub fn answerable()
    ensures { Answerable }
{}

// Every list of calls makes a run.
pub fn every_list_runs()
    ensures { EveryListRuns }
{}

// An undecided verdict has a chain that explains it, with no more positions than a board has places.
pub fn has_a_cause()
    ensures { HasACause }
{}

// No calls make a run, and one more call that agrees makes a longer one: for a loop over calls.
pub fn runs_grow()
    ensures { RunsGrow }
{}
