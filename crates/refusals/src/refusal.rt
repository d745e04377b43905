// A refusal, its number and its condition in words.
#![tactic(auto)]

ghost use Rattle.std.specs.Prelude.{◌≡◌};
ghost use Rattle.refusals.specs.Refusals.{number_of, Decodes};

use std::error::Error;
use std::fmt;

// Why a call refuses what it was given. A case's number is its own for good: C and records of cases name it so.
#[derive(Clone, Copy, Debug, PartialEq, Eq, PartialOrd, Ord, Hash)]
pub enum Refusal {
    // header: under 2 bytes
    UnitTooShort = 1,
    // header: the type in the second byte, bits 3 to 7, is not 14
    NotAVps = 2,
    // lengths: RBSP over 65,535 bytes
    RbspTooLong = 3,
    // lengths: work buffer shorter than the RBSP
    WorkTooShort = 4,
    // layers: max_sublayers_minus1 is 7
    SublayersReserved = 5,
    // layers: ids not strictly rising
    LayerIdsNotRising = 6,
    // layers: dependent layer without direct reference
    NoDirectReference = 7,
    // sets: mode 3
    ModeReserved = 8,
    // sets: row without output layer
    NoOutputLayer = 9,
    // sets: more PTLs than sets
    PtlsOverSets = 10,
    // PTL: max tid over max_sublayers_minus1
    PtlMaxTid = 11,
    // PTL: alignment bit 1 before the first PTL
    PtlAlignment = 12,
    // PTL: index not below the PTL count
    PtlIndex = 13,
    // each ue: 32 zeros
    CodeTooLong = 14,
    // DPB: slots over the multi-layer sets
    DpbSlots = 15,
    // DPB: max tid over max_sublayers_minus1
    DpbMaxTid = 16,
    // DPB: buffering over 15
    DpbBuffering = 17,
    // DPB: reorder over buffering
    DpbReorder = 18,
    // DPB: depth over 8
    DpbDepth = 19,
    // DPB: index not below the slots
    DpbIndex = 20,
    // timing: units or scale 0, after both HRD flags
    TimingZero = 21,
    // timing: schedule count field over 31
    ScheduleCount = 22,
    // timing: entries over the multi-layer sets
    TimingEntries = 23,
    // timing: max tid over max_sublayers_minus1
    TimingMaxTid = 24,
    // timing: elemental duration over 2,047
    ElementalDuration = 25,
    // timing: index not below the entries
    TimingIndex = 26,
    // end: no bit left for the stop bit
    StopBitMissing = 27,
    // end: stop bit 0
    StopBitZero = 28,
    // end: a 1 between stop bit and boundary
    AlignmentBitOne = 29,
    // record: record buffer too short; the needed length is returned
    RecordTooShort = 30,
    // writer, and all that answers from a record: not well formed; bit steps: a width over 32, a value that its code can't hold, a place from 2^63 on
    NotWellFormed = 31,
    // all that stores into an output: output too short
    OutputTooShort = 32,
    // rates, intervals: no timing section in the record, or no such entry, sublayer or schedule
    ItemMissing = 33,
    // layers: vps_video_parameter_set_id 0, directly before 5
    IdZero = 34,
    // each ue: its last bit lies past the end, and no 32 zeros stand before it; before the limits of its value
    CodePastEnd = 35,
}

// A number that no refusal has.
#[derive(Clone, Copy, Debug, PartialEq, Eq, Hash)]
pub struct NoRefusal(pub u32);

impl Refusal {
    // The refusal's number.
    pub fn number(self) -> u32
        ensures { result ≡ number_of self }
    {
        self as u32
    }
}

impl TryFrom<u32> for Refusal {
    type Error = NoRefusal;

    ghost try_from_gives = { Decodes };

    fn try_from(number: u32) -> Result<Self, NoRefusal> {
        match number {
            1 => Ok(Refusal::UnitTooShort),
            2 => Ok(Refusal::NotAVps),
            3 => Ok(Refusal::RbspTooLong),
            4 => Ok(Refusal::WorkTooShort),
            5 => Ok(Refusal::SublayersReserved),
            6 => Ok(Refusal::LayerIdsNotRising),
            7 => Ok(Refusal::NoDirectReference),
            8 => Ok(Refusal::ModeReserved),
            9 => Ok(Refusal::NoOutputLayer),
            10 => Ok(Refusal::PtlsOverSets),
            11 => Ok(Refusal::PtlMaxTid),
            12 => Ok(Refusal::PtlAlignment),
            13 => Ok(Refusal::PtlIndex),
            14 => Ok(Refusal::CodeTooLong),
            15 => Ok(Refusal::DpbSlots),
            16 => Ok(Refusal::DpbMaxTid),
            17 => Ok(Refusal::DpbBuffering),
            18 => Ok(Refusal::DpbReorder),
            19 => Ok(Refusal::DpbDepth),
            20 => Ok(Refusal::DpbIndex),
            21 => Ok(Refusal::TimingZero),
            22 => Ok(Refusal::ScheduleCount),
            23 => Ok(Refusal::TimingEntries),
            24 => Ok(Refusal::TimingMaxTid),
            25 => Ok(Refusal::ElementalDuration),
            26 => Ok(Refusal::TimingIndex),
            27 => Ok(Refusal::StopBitMissing),
            28 => Ok(Refusal::StopBitZero),
            29 => Ok(Refusal::AlignmentBitOne),
            30 => Ok(Refusal::RecordTooShort),
            31 => Ok(Refusal::NotWellFormed),
            32 => Ok(Refusal::OutputTooShort),
            33 => Ok(Refusal::ItemMissing),
            34 => Ok(Refusal::IdZero),
            35 => Ok(Refusal::CodePastEnd),
            _ => Err(NoRefusal(number)),
        }
    }
}

impl fmt::Display for Refusal {
    fn fmt<W: fmt::Write>(&self, f: &mut fmt::Formatter<W>) -> fmt::Result {
        write!(f, "{}", self.number())
    }
}

impl Error for Refusal {}

impl fmt::Display for NoRefusal {
    fn fmt<W: fmt::Write>(&self, f: &mut fmt::Formatter<W>) -> fmt::Result {
        write!(f, "no refusal has the number {}", self.0)
    }
}

impl Error for NoRefusal {}
