// A source packet: its checks, and its equations, one for each symbol of its ADU, which says that the position holds it.
ghost use Rattle.std.specs.Prelude.{◌≡◌, ◌≤◌, ◌+◌, ◌<◌};
ghost use Rattle.words.specs.Words.{length};
ghost use Rattle.memory.specs.Part.{splice};
ghost use Rattle.wire.specs.Packets.{symbol_count, symbol_at};
ghost use Rattle.table.specs.Window.{row_offset, Fits};
ghost use Rattle.table.specs.Packet.{Works};
ghost use Rattle.admission.specs.Steps.{Admits, Gathers};
ghost use Rattle.admission.specs.SourceSteps.{equation_of};
ghost use Rattle.admission.specs.Reading.{SourceRead};

use super::packet;
use super::packet::{Location, Passed};
use table::Shape;
use wire::Refusal;

// Reads a source packet that came with a flow, where `room` bytes of working memory are lent.
pub fn read_source(mem: &[u8], room: usize, flow: u8, packet: &[u8]) -> Result<Passed, Refusal>
    ensures { SourceRead flow packet.now mem.now room result }
{
    let header = packet::ready(mem, room)?;
    let Ok(fields) = wire::read_source(packet) else {
        return Err(Refusal::Form);
    };
    if !wire::is_announced(mem, flow) {
        return Err(Refusal::Unannounced);
    }
    if wire::LONGEST_ADU < fields.len {
        return Err(Refusal::Long);
    }
    let setting = header.setting;
    let count = wire::symbol_count(setting.size, fields.len);
    if setting.width < count {
        return Err(Refusal::Long);
    }
    let (based, location) = packet::place(header, fields.first, count)?;
    Ok(Passed {
        header: based,
        location,
        named: count,
        count,
        draws: 0,
    })
}

// The i-th symbol of an ADU in the row `k` of working memory.
fn write_row(work: &mut [u8], shape: Shape, k: usize, flow: u8, adu: &[u8], i: usize)
    requires { Works shape.width shape.size k work.old × (length adu.now ≤ 65535) × (i < symbol_count shape.size (length adu.now)) }
    ensures { work.new
        ≡ splice (row_offset shape.width shape.size k + shape.width) (symbol_at flow adu.now shape.size i) work.old }
{
    let at = table::symbol_offset(shape, k);
    wire::write_symbol(&mut work[at..at + shape.size], flow, adu, i);
}

// The equation of the i-th symbol of an ADU, after others of which `kept` rows were kept.
fn admit_symbol(
    mem: &[u8],
    work: &mut [u8],
    location: Location,
    kept: usize,
    flow: u8,
    adu: &[u8],
    i: usize,
) -> Option<usize>
    requires { Fits location.shape.width location.shape.size mem.now × Works location.shape.width location.shape.size kept work.old
        × (location.shape.oldest < location.shape.width) × (location.first < location.shape.width) × (length adu.now ≤ 65535)
        × (i < symbol_count location.shape.size (length adu.now)) × (symbol_count location.shape.size (length adu.now) ≤ location.shape.width) }
    ensures { Admits location (symbol_count location.shape.size (length adu.now))
        (λ d. equation_of location.shape.width location.shape.size flow adu.now d i)
        kept result mem.now work.old work.new }
{
    let shape = location.shape;
    let row = table::row_after(shape, location.first, i);
    write_row(work, shape, kept, flow, adu, i);
    packet::admit_equation(mem, work, &[1], location, kept, row)
}

// The equations of the `count` symbols of an ADU.
pub fn gather_source(
    mem: &[u8],
    work: &mut [u8],
    location: Location,
    flow: u8,
    adu: &[u8],
    count: usize,
) -> Option<usize>
    requires { Fits location.shape.width location.shape.size mem.now × Works location.shape.width location.shape.size 0 work.old
        × (location.shape.oldest < location.shape.width) × (location.first < location.shape.width) × (length adu.now ≤ 65535)
        × (count ≡ symbol_count location.shape.size (length adu.now)) × (count ≤ location.shape.width) }
    ensures { Gathers location (symbol_count location.shape.size (length adu.now))
        (equation_of location.shape.width location.shape.size flow adu.now)
        count result mem.now work.old work.new }
{
    let mut kept: usize = 0;
    for i in 0..count {
        kept = admit_symbol(mem, work, location, kept, flow, adu, i)?;
    }
    Some(kept)
}
