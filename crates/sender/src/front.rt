// The header at the front of a sender's memory.
ghost use Rattle.std.specs.Prelude.{◌≡◌, ◌≤◌, ◌<◌};
ghost use Rattle.words.specs.Words.{length};
ghost use Rattle.memory.specs.Part.{splice};
ghost use Rattle.wire.specs.Settings.{Valid};
ghost use Rattle.sender.specs.State.{memory_size, header_in};
ghost use Rattle.sender.specs.Inner.{count_bytes};

use super::Header;
use wire::{Esi, Kind, Setting};

// The bytes of the header.
pub const HEADER: usize = 64;

// How many bytes of memory a sender needs.
pub fn memory_size(setting: Setting) -> usize
    requires { Valid setting }
    ensures { result ≡ memory_size setting }
{
    HEADER + setting.width * setting.size
}

// Reads the header, if the memory has a sender's and is long enough for its setting.
pub fn read_header(mem: &[u8]) -> Option<Header>
    ensures { result ≡ header_in mem.now }
{
    let setting = wire::setting_in(mem, Kind::Sender as u16)?;
    if mem.len() < memory_size(setting) {
        return None;
    }
    let held = memory::load_u16(mem, 8) as usize;
    let next = memory::load_u16(mem, 10) as usize;
    if setting.width < held || setting.width <= next {
        return None;
    }
    let esi = Esi(memory::load_u32(mem, 12));
    Some(Header {
        setting,
        held,
        next,
        esi,
    })
}

// Writes what changes in the header: how many symbols the window has, and the slot and the ESI of the next symbol.
pub fn write_counts(mem: &mut [u8], held: usize, next: usize, esi: Esi)
    requires { (16 ≤ length mem.old) × (held < 65536) × (next < 65536) }
    ensures { mem.new ≡ splice 8 (count_bytes held next esi.0) mem.old }
{
    memory::store_u16(mem, 8, held as u16);
    memory::store_u16(mem, 10, next as u16);
    memory::store_u32(mem, 12, esi.0);
}
