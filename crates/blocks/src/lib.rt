// A block of RFC 6865 with the code of RFC 5510 (document 02, No. 9): what both its ends share. The numbers that they are opened with, how their
// memory keeps them, and the identifiers of its packets.
#![tactic(auto)]

ghost use Rattle.std.specs.Prelude.{◌≡◌, ◌≤◌, ◌<◌};
ghost use Rattle.words.specs.Words.{length};
ghost use Rattle.memory.specs.Part.{splice};
ghost use Rattle.blocks.specs.Block.{has_values, block_of, setting_for, Valid};
ghost use Rattle.blocks.specs.Stored.{block_in, block_bytes};

pub mod identifier;

use holding::front;
use wire::{Refusal, Scheme, Setting};

// The bytes of the header at the front of a block's memory.
pub const HEADER: usize = 96;

// A block: the bytes in a symbol (E), how many source symbols it has, how many symbols in all, and its number.
#[derive(Clone, Copy)]
pub struct Block {
    pub size: usize,
    pub k: usize,
    pub total: usize,
    pub number: u32,
}

// Whether the number of source symbols, the total and the block number have their values.
#[tactic(auto, unfolding(crate::specs::Block::has_values))]
fn has_values(k: usize, total: usize, number: usize) -> bool
    ensures { result ≡ has_values k total number }
{
    wire::between(1, total, k) && total <= 255 && number < 16777216
}

// The block that the four numbers of an opening name.
#[tactic(auto, using(crate::proofs::Values::values_told), unfolding(crate::specs::Block::block_of))]
pub fn block_of(size: usize, k: usize, total: usize, number: usize) -> Result<Block, Refusal>
    ensures { result ≡ block_of size k total number }
{
    if !wire::between(4, 1500, size) {
        return Err(Refusal::Values);
    }
    if !has_values(k, total, number) {
        return Err(Refusal::Block);
    }
    Ok(Block {
        size,
        k,
        total,
        number: number as u32,
    })
}

// The setting of the receiver whose memory a block's ends have: its width is the number of source symbols.
pub fn setting_for(block: Block) -> Setting
    ensures { result ≡ setting_for block }
{
    Setting {
        scheme: Scheme::Gf256,
        size: block.size,
        width: block.k,
    }
}

// The block in the header at the front of a memory, by the number of the kind that encodes it or that recovers it.
pub fn read_block(mem: &[u8], kind: u16) -> Option<Block>
    ensures { result ≡ block_in kind mem.now }
{
    let setting = wire::setting_in(mem, kind)?;
    if mem.len() < front::memory_size(setting) {
        return None;
    }
    let total = memory::load_u16(mem, 8) as usize;
    let number = memory::load_u32(mem, 12) as usize;
    block_of(setting.size, setting.width, total, number).ok()
}

// Writes the header of a block that has taken nothing at the front of a memory.
pub fn write_block(mem: &mut [u8], kind: u16, block: Block)
    requires { (16 ≤ length mem.old) × Valid block }
    ensures { mem.new ≡ splice 0 (block_bytes kind block) mem.old }
{
    wire::write_setting(mem, kind, setting_for(block));
    memory::store_u16(mem, 8, block.total as u16);
    memory::store_u16(mem, 10, 0);
    memory::store_u32(mem, 12, block.number);
}
