// Section lookup: the sections of a lent record, as parts of that record.
#![tactic(auto)]

ghost use Rattle.vps_sections.specs.Parts.{IsPart, PartOf};

use record_parts::Record;

// A part of a record: the index of its first number, and how many there are.
#[derive(Clone, Copy, PartialEq, Eq)]
pub struct Part {
    pub start: usize,
    pub count: usize,
}

impl Part {
    // The highest section: 0 is General, 8 the trailer.
    pub const LAST: u32 = Record::LAST_SECTION as u32;
}

// Which part of a record a section is. Of a list that is not well formed, and of a number over 8, it is the empty part at the end.
// As it is (1): C hands in any number, and there is an answer for each; an enum of the nine would turn those over 8 away.
pub fn section_part(record: &[u32], number: u32) -> Part
    ensures { IsPart «record».now number result.start result.count }
{
    if Part::LAST < number {
        return Part {
            start: record.len(),
            count: 0,
        };
    }
    if !vps_writer::is_well_formed(record) {
        return Part {
            start: record.len(),
            count: 0,
        };
    }
    let start = record_parts::start_of(record, number as usize);
    let end = record_parts::end_of(record, number as usize);
    Part {
        start,
        count: end - start,
    }
}

// A section's numbers: the part of the caller's own record where they stand.
// As it is (1): there is an answer for every number, as `section_part` has it, which an enum of the nine would not take.
pub fn section(record: &[u32], number: u32) -> &[u32]
    ensures { PartOf «record».now number «record».entry.ref_ptr result.ref_ptr result.now }
{
    let part = section_part(record, number);
    let start = part.start;
    let end = start + part.count;
    &record[start..end]
}
