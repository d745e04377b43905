// Reads a VPS unit into a lent record: a first pass measures, a second fills, by the same code.
#![tactic(auto)]

ghost use Rattle.std.specs.Prelude.{◌≡◌, List, [], ◌∷◌, ◌++◌, ℕ, ◌+◌, ◌^◌, ◌≤◌, ◌<◌, ltb, length, get_or};
ghost use Rattle.std.proofs.lemmas.List.Edits.{sets};
ghost use Rattle.stuffing.specs.Stuffing.{unstuff};
ghost use Rattle.refusals.specs.Refusals.{answer_of};
ghost use Rattle.bits.specs.Reading.{trailing_at};
ghost use Rattle.vps_definition.specs.Syntax.{numbers};
ghost use Rattle.vps_definition.specs.Reading.{bits_at, extension_bits, read_limited, most_rbsp_bytes};
ghost use Rattle.read_vps.specs.Table.{Table as TableIs};
ghost use Rattle.vps_reader.specs.Parse.{parse_payload, parse_unit};
ghost use Rattle.vps_reader.specs.Measures.{Kept, Measures, extension_flag, record_in};
ghost use Rattle.vps_reader.specs.Answers.{Answers, Gives};

mod parsed;

use bit_reader::BitReader;
pub use parsed::{NotParsed, Parsed};
use read_extension::Rbsp;
use read_vps::Table;
use record_parts::Record;
use refusals::Refusal;

// What the first pass finds: the table, how many extension bits there are, and the bits used.
#[derive(Clone, Copy)]
struct Measured {
    table: Table,
    count: usize,
    bits: usize,
}

// How many extension bits stand from a place on, behind the flag: while it is 1 and further data remain.
fn extension_bits(rbsp: Rbsp<'_>, at: usize, flag: u32) -> usize
    ensures { result ≡ extension_bits flag rbsp.entry.bytes.now at }
{
    if flag == 0 {
        return 0;
    }
    rbsp.data_bits(at)
}

// The trailing bits at a reader's place: the bits used then.
fn read_end(reader: &BitReader<'_>) -> Result<usize, Refusal>
    ensures { reader.now.bit_pos < 2 ^ 63 → answer_of result ≡ trailing_at reader.now.bytes.now reader.now.bit_pos }
{
    let mut end = *reader;
    end.read_rbsp_trailing_bits()?;
    Ok(end.bit_pos)
}

// The first pass: the table's numbers are stored in another list, as far as it reaches.
fn measure(rbsp: Rbsp<'_>, small: &mut [u32]) -> Result<Measured, Refusal>
    ensures { Measures rbsp.entry.bytes.now small.old small.new result }
{
    let table = read_vps::read_vps(rbsp.bytes, small)?;
    let count = extension_bits(rbsp, table.at, table.whole.extension_flag());
    let end = BitReader {
        bytes: rbsp.bytes,
        bit_pos: table.at + count,
    };
    let bits = read_end(&end)?;
    Ok(Measured { table, count, bits })
}

// A count or a start, as a number of the record.
fn number(v: usize) -> u32
    ensures { v < 2 ^ 32 → result ≡ v }
{
    u32::try_from(v).unwrap_or(u32::MAX)
}

// Stores the trailer: the starts, and the total length.
fn store_trailer(trailer: &mut [u32], starts: [usize; Record::STARTS], total: usize)
    requires { length trailer.old ≡ 8 }
    ensures { total < 2 ^ 32 → ((k : ℕ) → get_or starts k 0 < 2 ^ 32) → trailer.new ≡ starts ++ total ∷ [] }
{
    if let Some((last, places)) = trailer.split_last_mut() {
        places.copy_from_slice(&starts.map(number));
        *last = number(total);
    }
}

// Stores the extension: how many bits there are, and the bits, which stand from a reader's place on.
fn store_extension(extension: &mut [u32], reader: &BitReader<'_>)
    ensures { (n : ℕ) → length extension.old ≡ n + 1 → reader.now.bit_pos + n < 2 ^ 32 → extension.new ≡ n ∷ bits_at reader.now.bytes.now reader.now.bit_pos n }
{
    if let Some((count, bits)) = extension.split_first_mut() {
        *count = number(bits.len());
        read_extension::store_bits(reader, bits);
    }
}

// What the second pass goes by: the RBSP, the list that keeps the table of a small one, and what the first pass found.
#[derive(Clone, Copy)]
struct SecondPass<'a> {
    bytes: &'a [u8],
    small: &'a [u32],
    m: Measured,
    ghost few_numbers: { m.table.n + m.count + 9 < 2 ^ 32 },
}

impl SecondPass<'_> {
    // Stores the table's numbers: copied where the first pass has kept them all, else read again.
    fn store_table(&self, rec: &mut [u32])
        requires { self.now.m.table.n ≤ length rec.old }
        ensures { (T : TableIs self.now.bytes.now self.now.m.table) (lent : List ℕ) → self.now.small.now ≡ sets lent 9 (numbers T.kept) → rec.new ≡ sets rec.old 9 (numbers T.kept) }
    {
        let n = self.m.table.n;
        match self.small.get(Record::GENERAL..n) {
            Some(kept) => rec[Record::GENERAL..n].copy_from_slice(kept),
            None => {
                let _ = read_vps::read_vps(self.bytes, rec);
            }
        }
    }

    // Stores the whole record.
    fn fill(&self, rec: &mut [u32])
        requires { self.now.m.table.n + self.now.m.count + 9 ≤ length rec.old }
        ensures { (lent : List ℕ) (K : Kept self.now.bytes.now lent self.now.small.now self.now.m.table self.now.m.count self.now.m.bits) → rec.new ≡ sets rec.old 0 (record_in K.found) }
    {
        let table = self.m.table;
        rec[..Record::GENERAL].copy_from_slice(&table.whole.general);
        self.store_table(rec);
        let trailer = table.n + 1 + self.m.count;
        let end = trailer + Record::TRAILER;
        let reader = BitReader {
            bytes: self.bytes,
            bit_pos: table.at,
        };
        store_extension(&mut rec[table.n..trailer], &reader);
        store_trailer(&mut rec[trailer..end], table.whole.starts, end);
    }

    // Stores it where it fits.
    fn fill_where_room(&self, record: &mut [u32]) -> Result<Parsed, NotParsed>
        ensures { (lent : List ℕ) → Kept self.now.bytes.now lent self.now.small.now self.now.m.table self.now.m.count self.now.m.bits → Answers «record».old (read_limited self.now.bytes.now) result «record».new }
    {
        let m = self.m;
        let needed = m.table.n + m.count + Record::END;
        if record.len() < needed {
            return Err(NotParsed::RecordTooShort(needed));
        }
        self.fill(record);
        Ok(Parsed {
            numbers: needed,
            bits_used: m.bits,
        })
    }
}

// An RBSP, into a lent record, by way of another list, which keeps the table of a small one.
fn parse_by_way_of(
    rbsp: Rbsp<'_>,
    small: &mut [u32],
    record: &mut [u32],
) -> Result<Parsed, NotParsed>
    ensures { Answers «record».old (read_limited rbsp.entry.bytes.now) result «record».new }
{
    let m = measure(rbsp, small)?;
    let bytes = rbsp.bytes;
    SecondPass { bytes, small, m }.fill_where_room(record)
}

// An RBSP, into a lent record.
pub fn parse_rbsp(bytes: &[u8], record: &mut [u32]) -> Result<Parsed, NotParsed>
    ensures { Answers «record».old (read_limited bytes.now) result «record».new }
{
    let rbsp = Rbsp::new(bytes)?;
    let mut small = [0u32; Parsed::SMALL_NUMBERS];
    parse_by_way_of(rbsp, &mut small, record)
}

// Whether a payload's RBSP is too long: removing never lengthens, so a payload within the limit need not be measured.
fn is_too_long(payload: &[u8]) -> bool
    ensures { result ≡ ltb most_rbsp_bytes (length (unstuff payload.now)) }
{
    if payload.len() <= Parsed::MOST_RBSP_BYTES {
        return false;
    }
    Parsed::MOST_RBSP_BYTES < stuffing::rbsp_length(payload)
}

// A payload, into a lent record, by way of the work buffer.
fn parse_payload(payload: &[u8], work: &mut [u8], record: &mut [u32]) -> Result<Parsed, NotParsed>
    ensures { Gives (parse_payload (unstuff payload.now) work.old «record».old) result work.new «record».new }
{
    if is_too_long(payload) {
        return Err(Refusal::RbspTooLong.into());
    }
    let n = stuffing::ebsp_to_rbsp(payload, work).map_err(|_| Refusal::WorkTooShort)?;
    parse_rbsp(&work[..n], record)
}

// A unit, into a lent record. The RBSP goes into the work buffer, which the first four refusals leave as it was.
pub fn parse_vps(unit: &[u8], work: &mut [u8], record: &mut [u32]) -> Result<Parsed, NotParsed>
    ensures { Gives (parse_unit unit.now work.old «record».old) result work.new «record».new }
{
    if unit.len() < 2 {
        return Err(Refusal::UnitTooShort.into());
    }
    if unit[1] / 8 != Parsed::VPS_NUT {
        return Err(Refusal::NotAVps.into());
    }
    parse_payload(&unit[2..], work, record)
}
