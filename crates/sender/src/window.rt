// The window's slots: the symbol of position p stands in slot p mod width.
ghost use Rattle.std.specs.Prelude.{◌≡◌, ◌≤◌, ◌+◌, ◌<◌, ◌*◌};
ghost use Rattle.words.specs.Words.{length};
ghost use Rattle.memory.specs.Part.{part, splice};
ghost use Rattle.wire.specs.Packets.{longest_adu, symbol_count, adui};
ghost use Rattle.sender.specs.State.{header_in};
ghost use Rattle.sender.specs.Inner.{Fitting, PlacedAdu, Takeable, Took};

use super::{Header, front};
use wire::Setting;

// The i-th symbol of an ADU, of `size` bytes, at a.
fn place_symbol(mem: &mut [u8], a: usize, size: usize, flow: u8, adu: &[u8], i: usize)
    requires { (a + size ≤ length mem.old) × (4 ≤ size) × (size ≤ 1500) × (length adu.now ≤ longest_adu) × (i < symbol_count size (length adu.now)) }
    ensures { mem.new ≡ splice a (part (i * size) size (adui flow adu.now size)) mem.old }
{
    wire::write_symbol(&mut mem[a..a + size], flow, adu, i);
}

// The `count` symbols of an ADU, from slot `first` on; the answer is the slot after them.
fn place_symbols(
    mem: &mut [u8],
    setting: Setting,
    first: usize,
    flow: u8,
    adu: &[u8],
    count: usize,
) -> usize
    requires { Fitting setting mem.old first adu.now count }
    ensures { PlacedAdu setting first flow adu.now mem.old mem.new result }
{
    let size = setting.size;
    let width = setting.width;
    let mut slot = first;
    for i in 0..count {
        place_symbol(mem, front::HEADER + slot * size, size, flow, adu, i);
        slot = memory::next(slot, width);
    }
    slot
}

// Takes an ADU of `count` symbols into the window.
pub fn take_adu(mem: &mut [u8], header: Header, flow: u8, adu: &[u8], count: usize)
    requires { (header_in mem.old ≡ Some header) × Takeable header.setting adu.now count }
    ensures { Took header flow adu.now mem.old mem.new }
{
    let setting = header.setting;
    let next = place_symbols(mem, setting, header.next, flow, adu, count);
    let held = (header.held + count).min(setting.width);
    let esi = header.esi;
    front::write_counts(mem, held, next, esi.plus(count as u32));
}
