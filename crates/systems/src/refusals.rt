// Why a call is refused, and the fault that a reader of bytes passes on.
ghost use Rattle.std.specs.Prelude.{◌≡◌, Some};
ghost use Rattle.systems.specs.Faults.{without_place, at_place};
ghost use Rattle.systems.specs.Numbers.{refusal_number};
ghost use Rattle.systems.specs.Texts.{refusal_words, fault_text};

use std::fmt;

// The condition that failed. Where several fail, a call names the one that stands first here
// among those it puts.
#[derive(Clone, Copy, PartialEq, Eq, Debug)]
pub enum Refusal {
    FileLength = 1,
    CountRange = 2,
    ContentsEntry = 3,
    BodiesOverlap = 4,
    BodyByte = 5,
    NoStepOut = 6,
    NoStart = 7,
    RuleLength = 8,
    NotARule = 9,
    NestingDepth = 10,
    TooManyClauses = 11,
    MarkBeyondSystem = 12,
    GroupList = 13,
    UnusedGroup = 14,
    WorkspaceTooSmall = 15,
    NoSuchPosition = 16,
    VerdictDecided = 17,
    SlipBeyondStudy = 18,
    MembersAgree = 19,
    OpenListFull = 20,
    OutOfRange = 21,
    QueueFull = 22,
    PassLimit = 23,
}

// The number that a refusal goes by.
impl From<Refusal> for u8 {
    ghost from_gives = { λ refusal number. number ≡ refusal_number refusal };

    fn from(refusal: Refusal) -> u8 {
        refusal as u8
    }
}

// What the refusal means, for a person.
impl fmt::Display for Refusal {
    ghost output = { λ refusal. Some (refusal_words refusal) };

    fn fmt<W: fmt::Write>(&self, f: &mut fmt::Formatter<W>) -> fmt::Result {
        f.write_str(match self {
            Refusal::FileLength => "the file must have 14 to 32768 bytes",
            Refusal::CountRange => "there must be 1 to 128 states and 1 to 16 marks",
            Refusal::ContentsEntry =>
                "an entry of the contents has a wrong length, an offset below 14 or an end beyond the file",
            Refusal::BodiesOverlap => "two bodies share a byte",
            Refusal::BodyByte => "a byte of a body has a value that is not listed for it",
            Refusal::NoStepOut => "a state has no step out of it",
            Refusal::NoStart => "no state is a start",
            Refusal::RuleLength => "the rule must have 1 to 512 bytes",
            Refusal::NotARule => "the text is not a rule",
            Refusal::NestingDepth => "the rule is nested more than 32 deep",
            Refusal::TooManyClauses => "the rule has more than 64 clauses",
            Refusal::MarkBeyondSystem => "the rule names a mark that the system does not have",
            Refusal::GroupList =>
                "there must be one group for each state, each below the number of states",
            Refusal::UnusedGroup => "a group below the largest has no member",
            Refusal::WorkspaceTooSmall => "a workspace has fewer places than there are positions",
            Refusal::NoSuchPosition => "there is no such state or no such clause",
            Refusal::VerdictDecided => "the verdict is not undecided",
            Refusal::SlipBeyondStudy =>
                "the slip names a group, a mark or a target that does not exist",
            Refusal::MembersAgree => "all members of the group answer alike",
            Refusal::OpenListFull => "the open list has no free place",
            Refusal::OutOfRange => "a state or a mark is out of range",
            Refusal::QueueFull => "the queue has no free place",
            Refusal::PassLimit => "the limit of passes must be 1 to 30",
        })
    }
}

// Why bytes are refused, with the place where that shows, if one is told.
#[derive(Clone, Copy, PartialEq, Eq, Debug)]
pub struct Fault {
    pub refusal: Refusal,
    pub place: Option<usize>,
}

// A refusal that tells no place.
impl From<Refusal> for Fault {
    ghost from_gives = { λ refusal fault. fault ≡ without_place refusal };

    fn from(refusal: Refusal) -> Fault {
        Fault {
            refusal,
            place: None,
        }
    }
}

// Its number, and the place where one is told.
impl fmt::Display for Fault {
    ghost output = { λ fault. Some (fault_text fault) };

    fn fmt<W: fmt::Write>(&self, f: &mut fmt::Formatter<W>) -> fmt::Result {
        let number = u8::from(self.refusal);
        match self.place {
            Some(place) => write!(f, "refused {number} at {place}"),
            None => write!(f, "refused {number}"),
        }
    }
}

impl Fault {
    // A refusal at a place.
    pub fn at(refusal: Refusal, place: usize) -> Fault
        ensures { result ≡ at_place refusal place }
    {
        Fault {
            refusal,
            place: Some(place),
        }
    }
}
