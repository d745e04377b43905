// What reading says.
#![tactic(auto)]

use record_parts::Record;
use refusals::Refusal;
use std::error::Error;
use std::fmt;

// A record that was read: how many numbers it has, and how many bits were used. The numbers behind the record are as before.
#[derive(Clone, Copy, Debug, PartialEq, Eq, Hash)]
pub struct Parsed {
    pub numbers: usize,
    pub bits_used: usize,
}

// Why there is no record. The lent record is as it was.
#[derive(Clone, Copy, Debug, PartialEq, Eq, Hash)]
pub enum NotParsed {
    // the lent record is too short: refusal 30, with the length that it needs
    RecordTooShort(usize),
    Refused(Refusal),
}

impl Parsed {
    ghost use Rattle.std.specs.Prelude.{◌≡◌, take};

    // The bytes of the longest RBSP.
    pub const MOST_RBSP_BYTES: usize = Record::MOST_RBSP_BYTES;

    // nal_unit_type of a VPS.
    pub const VPS_NUT: u8 = 14;

    // The numbers of the reader's own list, which keeps the table of a small unit from the first pass.
    pub const SMALL_NUMBERS: usize = 128;

    // The record, at the beginning of the list that it was stored in.
    pub fn record_in(self, lent: &[u32]) -> &[u32]
        ensures { result.now ≡ take self.numbers lent.now }
    {
        lists::front(lent, self.numbers)
    }
}

impl NotParsed {
    ghost use Rattle.std.specs.Prelude.{◌≡◌};
    ghost use Rattle.vps_reader.specs.Answers.{refusal_of};

    // The refusal, without what is needed.
    pub fn refusal(self) -> Refusal
        ensures { result ≡ refusal_of self }
    {
        match self {
            NotParsed::RecordTooShort(_) => Refusal::RecordTooShort,
            NotParsed::Refused(refusal) => refusal,
        }
    }
}

impl From<Refusal> for NotParsed {
    ghost use Rattle.std.specs.Prelude.{◌≡◌};
    ghost use Rattle.vps_reader.specs.declared.parsed.NotParsed.TheVariants as NotParsedIs;

    ghost from_gives = { λ refusal not. not ≡ NotParsedIs.Refused refusal };

    fn from(refusal: Refusal) -> NotParsed {
        NotParsed::Refused(refusal)
    }
}

impl fmt::Display for NotParsed {
    fn fmt<W: fmt::Write>(&self, f: &mut fmt::Formatter<W>) -> fmt::Result {
        match self {
            NotParsed::RecordTooShort(needed) => write!(f, "the record needs {needed} numbers"),
            NotParsed::Refused(refusal) => write!(f, "refused: {refusal}"),
        }
    }
}

impl Error for NotParsed {}
