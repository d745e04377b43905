// Writes a record as a VPS unit into a lent output: a first pass measures and makes a small unit, a second fills the output with a longer one, by the same code.
#![tactic(auto)]

ghost use Rattle.std.specs.Prelude.{◌≡◌, set};
ghost use Rattle.vps_definition.specs.Writing.{write_record, well_formed};
ghost use Rattle.write_end.specs.Ends.{Finishes};
ghost use Rattle.vps_writer.specs.Write.{Measured, Writes};

use record_parts::Record;
use refusals::Refusal;
use vps_table::Whole;
use writing::Writing;

// The bytes of a unit's header: layer 0, type 14, TemporalId 0.
pub const HEADER: usize = 2;

// The second of them: type 14, TemporalId 0.
pub const TYPE_BYTE: u8 = 113;

// The bytes of the writer's own buffer, in which the first pass makes a small unit.
pub const SMALL_BYTES: usize = 512;

// The record's RBSP, stuffed, behind the header's place. Says how far the output is used, or would be with room.
fn put_rbsp(rec: &[u32], out: &mut [u8]) -> Result<usize, Refusal>
    ensures { Finishes (write_record rec.now) 2 out.old result out.new }
{
    let mut writing = Writing::new(rec, out, HEADER, Record::GENERAL);
    let whole = Whole::of(&mut writing)?;
    let general = whole.general.map(|number| number as usize);
    let mut trailer = [rec.len(); Record::TRAILER];
    trailer[..Record::STARTS].copy_from_slice(&whole.starts);
    write_end::write_end(&mut writing, &general, &trailer)
}

// The first pass: nothing is stored.
fn measure(rec: &[u32]) -> Result<usize, Refusal>
    ensures { Measured rec.now result }
{
    put_rbsp(rec, &mut [0; 1])
}

// Whether a record is well formed.
pub fn is_well_formed(record: &[u32]) -> bool
    ensures { result ≡ well_formed «record».now }
{
    measure(record).is_ok()
}

// A record's unit: the header, and the RBSP behind it.
fn put_unit(rec: &[u32], out: &mut [u8]) -> Result<usize, Refusal>
    ensures { Finishes (write_record rec.now) 2 (set (set out.old 0 0) 1 113) result out.new }
{
    lists::store(out, 0, 0);
    lists::store(out, 1, TYPE_BYTE);
    put_rbsp(rec, out)
}

// A record, written as a unit into a lent output. The first pass goes to another buffer, and a unit that has room there is copied.
fn write_by_way_of(record: &[u32], small: &mut [u8], output: &mut [u8]) -> Result<usize, Refusal>
    ensures { Writes «record».now output.old result output.new }
{
    let length = put_unit(record, small)?;
    if output.len() < length {
        return Err(Refusal::OutputTooShort);
    }
    if length <= small.len() {
        output[..length].copy_from_slice(&small[..length]);
        return Ok(length);
    }
    put_unit(record, output)
}

// A record, written as a unit into a lent output, and how many bytes that is. Bytes behind them, and an output under a
// refusal, are as before.
pub fn write_vps_nal(record: &[u32], output: &mut [u8]) -> Result<usize, Refusal>
    ensures { Writes «record».now output.old result output.new }
{
    write_by_way_of(record, &mut [0; SMALL_BYTES], output)
}
