// The header at the front of a receiver's memory.
ghost use Rattle.std.specs.Prelude.{◌≡◌, ◌≤◌};
ghost use Rattle.words.specs.Words.{length};
ghost use Rattle.wire.specs.Settings.{Valid};
ghost use Rattle.history.specs.History.{memory_size, working_size};
ghost use Rattle.holding.specs.Header.{header_in};
ghost use Rattle.holding.specs.Inner.{fresh_memory};

use super::Header;
use table::Shape;
use wire::{Esi, Kind, Setting};

// The rows of a fresh receiver.
fn rows_of(setting: Setting) -> Shape
    ensures { (result.width ≡ setting.width) × (result.size ≡ setting.size) }
{
    Shape {
        width: setting.width,
        size: setting.size,
        oldest: 0,
    }
}

// How many bytes a receiver needs.
pub fn memory_size(setting: Setting) -> usize
    requires { Valid setting }
    ensures { result ≡ memory_size setting }
{
    table::row_offset(rows_of(setting), setting.width) + setting.width
}

// How many bytes of working memory a packet call borrows.
pub fn working_size(setting: Setting) -> usize
    requires { Valid setting }
    ensures { result ≡ working_size setting }
{
    memory_size(setting) + table::stride(rows_of(setting)) + 1
}

// Reads the header, if the memory has a receiver's and is long enough for its setting.
pub fn read_header(mem: &[u8]) -> Option<Header>
    ensures { result ≡ header_in mem.now }
{
    let setting = wire::setting_in(mem, Kind::Receiver as u16)?;
    if mem.len() < memory_size(setting) {
        return None;
    }
    // 0 before any base, else one more than its row
    let stored = memory::load_u16(mem, 8) as usize;
    if setting.width < stored {
        return None;
    }
    let oldest = stored.saturating_sub(1);
    let esi = Esi(memory::load_u32(mem, 12));
    Some(Header {
        setting,
        joined: 0 < stored,
        oldest,
        esi,
    })
}

// Writes a receiver that has no base: its setting, and zeros over all the rest that it needs.
pub fn write_fresh(mem: &mut [u8], setting: Setting)
    requires { (memory_size setting ≤ length mem.old) × Valid setting }
    ensures { mem.new ≡ fresh_memory setting mem.old }
{
    wire::write_setting(mem, Kind::Receiver as u16, setting);
    let rest = memory_size(setting) - 8;
    memory::fill_part(mem, 8, rest, 0);
}
