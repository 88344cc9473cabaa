// A repair packet: its checks, and its equations, one for each repair symbol, which says that it is its combination of the positions' symbols.
ghost use Rattle.std.specs.Prelude.{◌≡◌, ◌≤◌, ◌+◌, ◌<◌, ◌*◌};
ghost use Rattle.words.specs.Words.{length};
ghost use Rattle.table.specs.Window.{Fits};
ghost use Rattle.table.specs.Packet.{Works};
ghost use Rattle.admission.specs.Steps.{Admits, Gathers};
ghost use Rattle.admission.specs.RepairSteps.{repair_equation, equation_at};
ghost use Rattle.admission.specs.Reading.{RepairRead};

use super::packet;
use super::packet::{Location, Passed};
use wire::Refusal;

// Reads a repair packet, where `room` bytes of working memory are lent. The lists of its coefficients go to the front of `lists`.
pub fn read_repair(
    mem: &[u8],
    room: usize,
    packet: &[u8],
    lists: &mut [u8],
) -> Result<Passed, Refusal>
    requires { 4080 ≤ length lists.old }
    ensures { RepairRead packet.now mem.now room lists.new result }
{
    let header = packet::ready(mem, room)?;
    let setting = header.setting;
    let Ok(fields) = wire::read_repair(packet, setting.size) else {
        return Err(Refusal::Form);
    };
    let named = fields.nss;
    let count = fields.count;
    if !wire::between(1, setting.width, named) {
        return Err(Refusal::Range);
    }
    let (based, location) = packet::place(header, fields.first, named)?;
    let scheme = setting.scheme;
    let draws = coefficients::fill_lists(lists, named, scheme, fields.key, fields.dt, count)?;
    Ok(Passed {
        header: based,
        location,
        named,
        count,
        draws,
    })
}

// One more equation, in the row after those that are kept: a repair symbol, and its coefficients of the positions from the packet's first on.
fn admit_symbol(
    mem: &[u8],
    work: &mut [u8],
    list: &[u8],
    symbol: &[u8],
    location: Location,
    kept: usize,
) -> Option<usize>
    requires { Fits location.shape.width location.shape.size mem.now × Works location.shape.width location.shape.size kept work.old
        × (location.shape.oldest < location.shape.width) × (location.first < location.shape.width)
        × (length list.now ≤ location.shape.width) × (length symbol.now ≡ location.shape.size) }
    ensures { Admits location (length list.now)
        (repair_equation location.shape.width location.shape.size (length list.now) list.now symbol.now)
        kept result mem.now work.old work.new }
{
    let shape = location.shape;
    let at = table::symbol_offset(shape, kept);
    memory::copy(&mut work[at..at + shape.size], symbol);
    packet::admit_equation(mem, work, list, location, kept, location.first)
}

// The equations of a repair packet's `count` symbols: the `n` coefficients of each stand one after the other in `lists`.
pub fn gather_repair(
    mem: &[u8],
    work: &mut [u8],
    lists: &[u8],
    packet: &[u8],
    location: Location,
    n: usize,
    count: usize,
) -> Option<usize>
    requires { Fits location.shape.width location.shape.size mem.now × Works location.shape.width location.shape.size 0 work.old
        × (location.shape.oldest < location.shape.width) × (location.first < location.shape.width) × (n ≤ location.shape.width)
        × (count * n ≤ length lists.now) × (8 + count * location.shape.size ≤ length packet.now) × (count ≤ 16) }
    ensures { Gathers location n (equation_at location.shape.width location.shape.size n lists.now packet.now)
        count result mem.now work.old work.new }
{
    let size = location.shape.size;
    let mut kept: usize = 0;
    for i in 0..count {
        let from = i * n;
        let at = 8 + i * size;
        kept = admit_symbol(
            mem,
            work,
            &lists[from..from + n],
            &packet[at..at + size],
            location,
            kept,
        )?;
    }
    Some(kept)
}
