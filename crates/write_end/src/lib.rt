// Writes a record's end: it is looked through from where the table's numbers end, and the extension and the trailing bits are put out.
#![tactic(auto)]

ghost use Rattle.std.specs.Prelude.{◌≡◌, List, ◌||◌, ℕ, ◌+◌, ◌-◌, ◌<◌, length, drop};
ghost use Rattle.vps_definition.specs.Syntax.{Token};
ghost use Rattle.vps_definition.specs.Syntax.Written.{wrote};
ghost use Rattle.vps_definition.specs.Writing.{finished};
ghost use Rattle.writing.specs.Emits.{Ready, Stays, Emits};
ghost use Rattle.write_end.specs.Parts.{Taken, trailer_of, count_in};
ghost use Rattle.write_end.specs.Numbers.{Has};
ghost use Rattle.write_end.specs.Ends.{may_extend, Looked, extension_table, Finishes};

use bit_sink::Sink;
use record_parts::Record;
use refusals::Refusal;
use table_steps::Steps;
use writing::Writing;

// Whether numbers begin with those of a list.
fn has_numbers(numbers: &[u32], list: &[usize]) -> bool
    ensures { Has numbers.now list.now result }
{
    let Some(first) = numbers.get(..list.len()) else {
        return false;
    };
    first
        .iter()
        .zip(list)
        .all(|(v, number)| *v as usize == *number)
}

// Whether extension bits may stand under a flag.
fn may_extend(flag: usize, count: usize) -> bool
    ensures { result ≡ may_extend flag count }
{
    flag == 1 || count == 0
}

// Whether the record ends as it must behind the table's numbers, its bits not looked at one by one.
fn has_end(writing: &Writing, general: &[usize], trailer: &[usize]) -> bool
    ensures { (t : List Token) → Taken writing.now.rec.now general.now t writing.now.c → trailer.now ≡ trailer_of writing.now.rec.now t → Looked writing.now.rec.now general.now t writing.now.c result }
{
    let Some((count, bits)) = lists::behind(writing.rec, writing.c).split_first() else {
        return false;
    };
    let Some((_, end)) = bits.split_at_checked(*count as usize) else {
        return false;
    };
    if end.len() != Record::TRAILER {
        return false;
    }
    if !has_numbers(writing.rec, general) {
        return false;
    }
    if !has_numbers(end, trailer) {
        return false;
    }
    let flag = general.get(Record::EXTENSION_FLAG).copied().unwrap_or(0);
    may_extend(flag, *count as usize)
}

// The extension: its count, and its bits.
fn extension(writing: &mut Writing) -> Result<(), Refusal>
    ensures { Emits (extension_table (count_in writing.old.rec.now writing.old.c)) writing.old result writing.new }
{
    let count = record_parts::number_at(writing.rec, writing.c);
    writing.infer(count)?;
    writing.flags(count as usize)
}

// The end of a record whose table is written: the extension, the trailing bits, and the 03 that may follow them. Says how far
// the output is used, or would be with room.
pub fn write_end(
    writing: &mut Writing,
    general: &[usize],
    trailer: &[usize],
) -> Result<usize, Refusal>
    ensures stays { Stays writing.old writing.new }
    ensures ends { (start : ℕ) (d lent : List ℕ) (t : List Token) → Ready start d writing.old lent → Taken writing.old.rec.now general.now t writing.old.c → trailer.now ≡ trailer_of writing.old.rec.now t → Finishes (finished writing.old.rec.now (wrote general.now t (drop writing.old.c writing.old.rec.now) d)) start lent result writing.new.out.now }
{
    if !has_end(writing, general, trailer) {
        return Err(Refusal::NotWellFormed);
    }
    extension(writing)?;
    if Record::MOST_RBSP_BITS <= writing.so_far.bits {
        return Err(Refusal::NotWellFormed);
    }
    let mut sink = Sink {
        out: &mut *writing.out,
        so_far: writing.so_far,
    };
    Ok(sink.finish())
}
