// Colours by walks are the colours of the three-valued semantics of CTL by maximal paths.
ghost use Rattle.colours.specs.PathTheorems.{
  WalksAndPathsAgree,
  VerdictsByPathsAgree,
  PossiblePathsEndless,
};

// Over every lawful model a rule is T by walks where it is T by maximal paths, and F where it is F.
pub fn walks_and_paths_agree()
    ensures { WalksAndPathsAgree }
{}

// Over every lawful model the verdict by walks is the verdict by maximal paths.
pub fn verdicts_by_paths_agree()
    ensures { VerdictsByPathsAgree }
{}

// In a lawful model no maximal possible path ends.
pub fn possible_paths_endless()
    ensures { PossiblePathsEndless }
{}
