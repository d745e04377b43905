// The layer page: a line for each output layer set of a record, for controllers to pin beside the map.
#![tactic(auto)]

ghost use Rattle.std.specs.Prelude.{◌≡◌};
ghost use Rattle.refusals.specs.Refusals.{answer_of};
ghost use Rattle.texts.specs.Adds.{Adds};
ghost use Rattle.vps_definition.specs.OutputLayerSets.{count_below};
ghost use Rattle.vps_writer.specs.Write.{write_of, output_of};
ghost use Rattle.layer_sets.specs.Masks.{bit_of};
ghost use Rattle.layer_page.specs.Page.{place, places, line, page_of, layer_page};

use record_parts::Record;
use record_sets::RecordSets;
use refusals::Refusal;
use text_numbers::put_right_aligned;
use texts::Text;

// The bytes of a line: the set's index in three columns, a blank, how many layers it has in two, a blank, 64 places, and a line feed.
pub const LINE_BYTES: usize = 3 + 1 + 2 + 1 + Record::MOST_LAYERS + 1;

// Place j of a set, where there are n layers: whether layer j is in it, or a blank where there is no such layer.
fn place(mask: u64, n: u32, j: usize) -> u8
    ensures { result ≡ place n (bit_of mask) j }
{
    if j >= n as usize {
        return b' ';
    }
    if layer_sets::has(mask, j) {
        return b'#';
    }
    b'.'
}

// The places of a set.
fn places(mask: u64, n: u32) -> [u8; Record::MOST_LAYERS]
    ensures { result ≡ places n (bit_of mask) 64 }
{
    let mut places = [b' '; Record::MOST_LAYERS];
    for (j, there) in places.iter_mut().enumerate() {
        *there = place(mask, n, j);
    }
    places
}

// The line of a set: its index, how many layers it has, and its places.
fn put_line(text: &mut Text, index: u32, mask: u64, n: u32)
    ensures { Adds (line index (count_below 64 (bit_of mask)) n (bit_of mask)) text.old text.new }
{
    put_right_aligned(text, index as u64, 3);
    text.put(b" ");
    put_right_aligned(text, layer_sets::count(mask) as u64, 2);
    text.put(b" ");
    text.put(&places(mask, n));
    text.put(b"\n");
}

// The lines of all sets, in set order.
fn put_page(text: &mut Text, sets: &RecordSets)
    ensures { Adds (page_of sets.now.«record».now) text.old text.new }
{
    for i in 0..sets.count() {
        put_line(text, i, sets.mask(i), sets.layers());
    }
}

// The layer page of a record, into a lent output, and how many bytes that is. Bytes behind them, and an output under a refusal, are
// as before. A list that is not well formed is refused before an output that is too short.
pub fn layer_page(record: &[u32], output: &mut [u8]) -> Result<usize, Refusal>
    ensures result_value { answer_of result ≡ write_of output.old (layer_page «record».now) }
    ensures output_after { output.new ≡ output_of output.old (layer_page «record».now) }
{
    let sets = RecordSets::of(record).ok_or(Refusal::NotWellFormed)?;
    let length = sets.count() as usize * LINE_BYTES;
    if output.len() < length {
        return Err(Refusal::OutputTooShort);
    }
    let mut text = Text::at(output, 0);
    put_page(&mut text, &sets);
    Ok(length)
}
