// Reads the table of a VPS from an RBSP into a lent record, behind the numbers of the General section.
#![tactic(auto)]

ghost use Rattle.read_vps.specs.Table.{TableMet};

use reading::Reading;
use record_parts::Record;
use refusals::Refusal;
use vps_table::Whole;

// What the table has for the record's General section and its trailer, and where the reading stands behind it: the bit
// place, and the record's next number.
#[derive(Clone, Copy)]
pub struct Table {
    pub whole: Whole,
    pub at: usize,
    pub n: usize,
}

// The whole table, stored from the first number behind the General section on, as far as the list reaches.
pub fn read_vps(bytes: &[u8], rec: &mut [u32]) -> Result<Table, Refusal>
    ensures { TableMet bytes.now rec.old result rec.new }
{
    let mut reading = Reading::new(bytes, rec, Record::GENERAL);
    let whole = Whole::of(&mut reading)?;
    Ok(Table {
        whole,
        at: reading.at,
        n: reading.n,
    })
}
