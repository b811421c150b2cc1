//! The results of calls.

ghost use Rattle.std.specs.Prelude.{◌≡◌};
ghost use Rattle.rigyomad_c.specs.Answers.{status_of, code_of};
ghost use Rattle.wat_bytes.specs.Texts.{number_of};

use wat_bytes::Refused;

/// The number of E12.
const OUT_OF_MEMORY: u32 = 12;

/// The result of a call. C gets its number.
#[derive(Clone, Copy, Debug, PartialEq, Eq)]
pub(crate) enum Status {
    /// 0: success.
    Done,
    /// 1: a slice is too short, and a size has the length that is needed.
    Short,
    /// 2: the text has an error.
    Fault,
    /// 3: the text or the name is not UTF-8.
    Utf8,
    /// 4: allocation failed.
    Memory,
    /// 5: no item has the name, or there is no such index space.
    Unknown,
}

impl Status {
    /// Returns the status of a text that has an error.
    pub(crate) fn of(refused: &Refused<'_>) -> Status
        ensures { result ≡ status_of (number_of refused.now) }
    {
        match refused.number() {
            Some(OUT_OF_MEMORY) => Status::Memory,
            _ => Status::Fault,
        }
    }

    /// Returns the number of the status.
    pub(crate) fn code(self) -> u32
        ensures { result ≡ code_of self }
    {
        match self {
            Status::Done => 0,
            Status::Short => 1,
            Status::Fault => 2,
            Status::Utf8 => 3,
            Status::Memory => 4,
            Status::Unknown => 5,
        }
    }
}
