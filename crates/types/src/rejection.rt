// Rejections: why a call does nothing. Each has the number by which documents and C know it.
ghost use Rattle.std.specs.Prelude.{◌≡◌};
ghost use Rattle.types.specs.Rejections.{rejection_number, no_kind_rejection, answer_number};

use crate::kind::NoKind;

#[derive(Clone, Copy, Debug, PartialEq, Eq)]
pub enum Rejection {
    // 1, 2: the length of a state, and a plan.
    StateLength = 1,
    Plan = 2,
    // 3, 4: the number of a step's kind.
    KeptKind = 3,
    UnknownKind = 4,
    // 5, 6: the bytes of a log.
    LogEnds = 5,
    NumberForm = 6,
    // 7 to 9: a number, an output, a state.
    OutOfRange = 7,
    OutputLength = 8,
    NotWellFormed = 9,
    // 10 to 14: the replica of the acting host, and the other one.
    NotInstalled = 10,
    NotMember = 11,
    WrongMode = 12,
    NoSource = 13,
    IsOrderer = 14,
    // 15 to 17: an entry that is added.
    EntryHeld = 15,
    HistoryFull = 16,
    NotSequencer = 17,
    // 18, 19: a stable length that is learned.
    NotLonger = 18,
    NotAlike = 19,
    // 20 to 24: an issue that is installed or added.
    NoIssue = 20,
    WrongIndex = 21,
    IssuedBefore = 22,
    RivalIssue = 23,
    NotWedged = 24,
}

impl From<Rejection> for u64 {
    ghost from_gives = { λ rejection number. number ≡ rejection_number rejection };

    // Its number, 1 to 24.
    fn from(rejection: Rejection) -> u64 {
        rejection as u64
    }
}

impl From<NoKind> for Rejection {
    ghost from_gives = { λ no_kind rejection. rejection ≡ no_kind_rejection no_kind };

    fn from(no_kind: NoKind) -> Rejection {
        match no_kind {
            NoKind::Kept => Rejection::KeptKind,
            NoKind::Unknown => Rejection::UnknownKind,
        }
    }
}

// The number of an answer as documents and C have it: 0, or that of the rejection.
pub fn number_of<T>(answer: &Result<T, Rejection>) -> u64
    ensures { result ≡ answer_number answer.now }
{
    match answer {
        Ok(_) => 0,
        Err(rejection) => u64::from(*rejection),
    }
}
