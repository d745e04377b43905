// Reading, writing, section lookup, the layer page, link figures, byte stuffing and the sentences of refusals for C and other
// languages, by numbers and slices alone: each function but the last gives 0, or a refusal's number, and stores what else it has to say where a reference points.
#![tactic(auto)]

ghost use Rattle.std.specs.Prelude.{◌≡◌, ◌+◌};
ghost use Rattle.refusals.specs.Lent.{lent, output_after};
ghost use Rattle.refusals.specs.Refusals.{answer_of};
ghost use Rattle.stuffing.specs.Stuffing.{unstuff, stuff};
ghost use Rattle.sentences.specs.Sentences.{sentence_of, number_of};
ghost use Rattle.vps_definition.specs.Writing.{write_record};
ghost use Rattle.vps_definition.specs.Lookup.{section_start, section_end};
ghost use Rattle.vps_reader.specs.Parse.{parse_unit};
ghost use Rattle.vps_writer.specs.Write.{write_of, output_of};
ghost use Rattle.layer_page.specs.Page.{layer_page};
ghost use Rattle.link_figures.specs.Figures.{bit_rate, buffer_size, picture_interval};
ghost use Rattle.vps_c.specs.Calls.{Parses, Tells};
ghost use Rattle.vps_c.specs.Figures.{kind_of, figure_of, TellsInterval};

use record_timing::Kind;
use refusals::Refusal;
use vps_reader::NotParsed;

// A unit, into a lent record. Success stores the record's length and the bits used; refusal 30 stores the length that the record
// needs, and any other refusal stores nothing.
#[unsafe(no_mangle)]
pub extern "C" fn vps_parse(
    unit: &[u8],
    work: &mut [u8],
    record: &mut [u32],
    length: &mut u64,
    bits_used: &mut u64,
) -> u32
    ensures { Parses (parse_unit unit.now work.old «record».old) length.old bits_used.old result work.new «record».new length.new bits_used.new }
{
    match vps_reader::parse_vps(unit, work, record) {
        Ok(parsed) => {
            *length = parsed.numbers as u64;
            *bits_used = parsed.bits_used as u64;
            0
        }
        Err(NotParsed::RecordTooShort(needed)) => {
            *length = needed as u64;
            Refusal::RecordTooShort.number()
        }
        Err(NotParsed::Refused(refusal)) => refusal.number(),
    }
}

// An answer by its number: success is 0 and stores what it has; a refusal stores nothing.
#[inline]
fn tell_figure(answer: Result<u64, Refusal>, told: &mut u64) -> u32
    ensures { Tells (answer_of answer) told.old result told.new }
{
    match answer {
        Ok(has) => {
            *told = has;
            0
        }
        Err(refusal) => refusal.number(),
    }
}

// The same of a length.
#[inline]
fn tell(answer: Result<usize, Refusal>, told: &mut u64) -> u32
    ensures { Tells (answer_of answer) told.old result told.new }
{
    tell_figure(answer.map(|has| has as u64), told)
}

// A record, written as a unit into a lent output. Success stores how many bytes were written; a refusal stores nothing.
#[unsafe(no_mangle)]
pub extern "C" fn vps_write(record: &[u32], output: &mut [u8], written: &mut u64) -> u32
    ensures tells { Tells (write_of output.old (write_record «record».now)) written.old result written.new }
    ensures output_after { output.new ≡ output_of output.old (write_record «record».now) }
{
    tell(vps_writer::write_vps_nal(record, output), written)
}

// A section of a record: where its part starts, and how many numbers it has. Of a list that is not well formed, and of a number
// over 8, it is the empty part at the end. Nothing is refused.
#[unsafe(no_mangle)]
pub extern "C" fn vps_section(record: &[u32], number: u32, start: &mut u64, count: &mut u64) -> u32
    ensures value { result ≡ 0 }
    ensures start_after { start.new ≡ section_start «record».now number }
    ensures count_after { start.new + count.new ≡ section_end «record».now number }
{
    let part = vps_sections::section_part(record, number);
    *start = part.start as u64;
    *count = part.count as u64;
    0
}

// The layer page of a record, into a lent output: a line for each output layer set. Success stores its length; a refusal stores
// nothing.
#[unsafe(no_mangle)]
pub extern "C" fn vps_layer_page(record: &[u32], output: &mut [u8], length: &mut u64) -> u32
    ensures tells { Tells (write_of output.old (layer_page «record».now)) length.old result length.new }
    ensures output_after { output.new ≡ output_of output.old (layer_page «record».now) }
{
    tell(layer_page::layer_page(record, output), length)
}

// Which list of schedules a number names: 0 is that of NAL, 1 that of VCL.
fn kind_of(vcl: u32) -> Option<Kind>
    ensures { result ≡ kind_of vcl }
{
    match vcl {
        0 => Some(Kind::Nal),
        1 => Some(Kind::Vcl),
        _ => None,
    }
}

// The bit rate of a schedule of a record, in bit/s. Success stores it; a refusal stores nothing. No record has a list of schedules by
// another number than 0 or 1.
#[unsafe(no_mangle)]
pub extern "C" fn vps_bit_rate(
    record: &[u32],
    entry: u32,
    sublayer: u32,
    vcl: u32,
    schedule: u32,
    rate: &mut u64,
) -> u32
    ensures { Tells (figure_of (kind_of vcl) «record».now (λ kind. bit_rate «record».now entry sublayer kind schedule)) rate.old result rate.new }
{
    let answer = match kind_of(vcl) {
        Some(kind) => link_figures::bit_rate(record, entry, sublayer, kind, schedule),
        None => Err(record_timing::lacks(record)),
    };
    tell_figure(answer, rate)
}

// The buffer size of a schedule of a record, in bits, likewise.
// As it is (2): the names are C's; the common body is `tell_figure`.
#[unsafe(no_mangle)]
pub extern "C" fn vps_buffer_size(
    record: &[u32],
    entry: u32,
    sublayer: u32,
    vcl: u32,
    schedule: u32,
    size: &mut u64,
) -> u32
    ensures { Tells (figure_of (kind_of vcl) «record».now (λ kind. buffer_size «record».now entry sublayer kind schedule)) size.old result size.new }
{
    let answer = match kind_of(vcl) {
        Some(kind) => link_figures::buffer_size(record, entry, sublayer, kind, schedule),
        None => Err(record_timing::lacks(record)),
    };
    tell_figure(answer, size)
}

// The picture interval of a sublayer of a record, in whole microseconds. Success stores 1 and the interval, or 0 and 0 where the
// record doesn't say; a refusal stores nothing.
#[unsafe(no_mangle)]
pub extern "C" fn vps_picture_interval(
    record: &[u32],
    entry: u32,
    sublayer: u32,
    known: &mut u32,
    microseconds: &mut u64,
) -> u32
    ensures { TellsInterval (picture_interval «record».now entry sublayer) known.old microseconds.old result known.new microseconds.new }
{
    match link_figures::picture_interval(record, entry, sublayer) {
        Ok(interval) => {
            *known = interval.is_some() as u32;
            *microseconds = interval.unwrap_or(0);
            0
        }
        Err(refusal) => refusal.number(),
    }
}

// The stuffing of a payload removed, into a lent output. Success stores the length of what is left; a refusal stores nothing.
#[unsafe(no_mangle)]
pub extern "C" fn vps_ebsp_to_rbsp(source: &[u8], output: &mut [u8], length: &mut u64) -> u32
    ensures tells { Tells (lent (unstuff source.now) output.old) length.old result length.new }
    ensures output_after { output.new ≡ output_after (unstuff source.now) output.old }
{
    tell(stuffing::ebsp_to_rbsp(source, output), length)
}

// Stuffing added to an RBSP, into a lent output. Success stores the length of what was made; a refusal stores nothing.
// As it is (2): the names are C's; the common body is `tell`.
#[unsafe(no_mangle)]
pub extern "C" fn vps_rbsp_to_ebsp(source: &[u8], output: &mut [u8], length: &mut u64) -> u32
    ensures tells { Tells (lent (stuff source.now) output.old) length.old result length.new }
    ensures output_after { output.new ≡ output_after (stuff source.now) output.old }
{
    tell(stuffing::rbsp_to_ebsp(source, output), length)
}

// The sentence of a refusal, into a lent output; the empty one of every number that is no refusal's. Success stores its length; a
// refusal stores nothing.
#[unsafe(no_mangle)]
pub extern "C" fn vps_sentence(number: u32, output: &mut [u8], length: &mut u64) -> u32
    ensures tells { Tells (lent (sentence_of number) output.old) length.old result length.new }
    ensures output_after { output.new ≡ output_after (sentence_of number) output.old }
{
    tell(sentences::sentence(number, output), length)
}

// The number of the refusal whose sentence this is, or 0. Nothing is refused.
#[unsafe(no_mangle)]
pub extern "C" fn vps_sentence_number(sentence: &[u8]) -> u32
    ensures { result ≡ number_of sentence.now }
{
    sentences::sentence_number(sentence).map_or(0, Refusal::number)
}
