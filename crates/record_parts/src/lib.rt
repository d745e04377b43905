// A record's limits, and where its sections start and end, as its trailer says.
#![tactic(auto)]

ghost use Rattle.std.specs.Prelude.{◌≡◌, ◌-◌, length, get_or};
ghost use Rattle.vps_definition.specs.Record.{start_of, end_of};

// A record: how many numbers its parts have, and how much it may hold.
#[derive(Clone, Copy)]
pub struct Record;

impl Record {
    // The numbers of the General section.
    pub const GENERAL: usize = 9;

    // Their places, by the names of the standard's fields; the first number is how many layers there are.
    pub const LAYERS: usize = 0;

    pub const VIDEO_PARAMETER_SET_ID: usize = 1;

    pub const MAX_SUBLAYERS_MINUS1: usize = 2;

    pub const DEFAULT_PTL_DPB_HRD_MAX_TID_FLAG: usize = 3;

    pub const ALL_INDEPENDENT_LAYERS_FLAG: usize = 4;

    pub const EACH_LAYER_IS_AN_OLS_FLAG: usize = 5;

    pub const OLS_MODE_IDC: usize = 6;

    pub const SUBLAYER_DPB_PARAMS_PRESENT_FLAG: usize = 7;

    pub const EXTENSION_FLAG: usize = 8;

    // The starts in the trailer, one for each section after General.
    pub const STARTS: usize = 7;

    // The numbers of the trailer: the starts, and the total length.
    pub const TRAILER: usize = Record::STARTS + 1;

    // The number of the last section, the trailer; General is 0.
    pub const LAST_SECTION: usize = Record::STARTS + 1;

    // The numbers behind the table's own, extension bits aside: their count, and the trailer.
    pub const END: usize = 1 + Record::TRAILER;

    // The most layers.
    pub const MOST_LAYERS: usize = 64;

    // The most rows of output layer flags.
    pub const MOST_ROWS: u32 = 256;

    // The bytes of the longest RBSP.
    pub const MOST_RBSP_BYTES: usize = 65_535;

    // Its bits.
    pub const MOST_RBSP_BITS: usize = 8 * Record::MOST_RBSP_BYTES;
}

// Number i of a record; 0 past the end.
// As it is (6): the index is what is asked; without it each caller would repeat `get(i).copied().unwrap_or(0)`.
pub fn number_at(rec: &[u32], i: usize) -> u32
    ensures { result ≡ get_or rec.now i 0 }
{
    rec.get(i).copied().unwrap_or(0)
}

// Where the trailer starts.
fn trailer_start(rec: &[u32]) -> usize
    ensures { result ≡ length rec.now - 8 }
{
    rec.len().saturating_sub(Record::TRAILER)
}

// Where section k starts. From 8 on it is the trailer.
// As it is (1): every number has an answer, and the trailer is said to start at one place from 8 on; an enum of nine has none for 9.
pub fn start_of(rec: &[u32], k: usize) -> usize
    ensures { result ≡ start_of rec.now k }
{
    if k == 0 {
        return 0;
    }
    if k - 1 < Record::STARTS {
        return number_at(rec, trailer_start(rec) + (k - 1)) as usize;
    }
    trailer_start(rec)
}

// Where it ends: there the next one starts, and the trailer ends with the record.
// As it is (1): every number has an answer, as for `start_of`, and the next section is k + 1, where an enum needs a table of those behind.
pub fn end_of(rec: &[u32], k: usize) -> usize
    ensures { result ≡ end_of rec.now k }
{
    if k < Record::LAST_SECTION {
        return start_of(rec, k + 1);
    }
    rec.len()
}
