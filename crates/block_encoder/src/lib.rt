// The encoder of a block (RFC 6865 with the code of RFC 5510; document 02, No. 9): opening, adding an ADU, making a repair packet.
#![tactic(auto)]

ghost use Rattle.std.specs.Prelude.{◌≡◌, ◌≤◌, ◌+◌, ◌*◌, ◌<◌};
ghost use Rattle.words.specs.Words.{length, leb};
ghost use Rattle.memory.specs.Part.{splice};
ghost use Rattle.wire.specs.Packets.{symbol_at};
ghost use Rattle.blocks.specs.Block.{Valid};
ghost use Rattle.blocks.specs.Identifiers.{source_packet, repair_packet};
ghost use Rattle.block_encoder.specs.Promises.{Opens, Adds, Makes};
ghost use Rattle.block_encoder.specs.Inner.{symbol_from};

use blocks::identifier::Identifier;
use blocks::{Block, HEADER, identifier};
use holding::front;
use wire::{Kind, Refusal};

// What a call answers: the number of bytes written (opening: 0), or a refusal.

// Opens the encoder of a block in the memory.
pub fn open(
    mem: &mut [u8],
    size: usize,
    k: usize,
    total: usize,
    number: usize,
) -> Result<usize, Refusal>
    ensures { Opens size k total number mem.old result mem.new }
{
    let block = blocks::block_of(size, k, total, number)?;
    if mem.len() < front::memory_size(blocks::setting_for(block)) {
        return Err(Refusal::Short);
    }
    blocks::write_block(mem, Kind::Encoder as u16, block);
    Ok(0)
}

// Whether n bytes and an identifier have room in so many.
fn has_room(room: usize, n: usize) -> bool
    ensures { result ≡ leb (n + 6) room }
{
    6 <= room && n <= room - 6
}

// The identifier of a symbol of a block.
fn identifier_of(block: Block, esi: usize) -> Identifier
    requires { Valid block × (esi < 256) }
    ensures { (result.block ≡ block.number) × (result.esi ≡ esi) × (result.k ≡ block.k) }
{
    Identifier {
        block: block.number,
        esi: esi as u8,
        k: block.k as u16,
    }
}

// The ADU becomes source symbol i.
fn put_adu(mem: &mut [u8], size: usize, i: usize, flow: u8, adu: &[u8])
    requires { (4 ≤ size) × (size ≤ 1500) × (i < 255) × (96 + i * size + size ≤ length mem.old) × (3 + length adu.now ≤ size) }
    ensures { mem.new ≡ splice (96 + i * size) (symbol_at flow adu.now size 0) mem.old }
{
    let at = HEADER + i * size;
    wire::write_symbol(&mut mem[at..at + size], flow, adu, 0);
}

// The source packet of the ADU with an ESI, at the front of the output.
fn write_source(out: &mut [u8], block: Block, esi: usize, adu: &[u8])
    requires { Valid block × (esi < 256) × (length adu.now + 6 ≤ length out.old) }
    ensures { out.new ≡ splice 0 (source_packet block esi adu.now) out.old }
{
    let n = adu.len();
    memory::copy_part(out, 0, adu, 0, n);
    identifier::write(out, n, identifier_of(block, esi));
}

// Adds an ADU, which is the next source symbol, and writes its source packet.
pub fn add_adu(mem: &mut [u8], flow: u8, adu: &[u8], out: &mut [u8]) -> Result<usize, Refusal>
    ensures { Adds flow adu.now mem.old out.old result mem.new out.new }
{
    let block = blocks::read_block(mem, Kind::Encoder as u16).ok_or(Refusal::Unopened)?;
    if !has_room(out.len(), adu.len()) {
        return Err(Refusal::Short);
    }
    let taken = memory::load_u16(mem, 10) as usize;
    if block.k <= taken {
        return Err(Refusal::Block);
    }
    if block.size - 3 < adu.len() {
        return Err(Refusal::Long);
    }
    put_adu(mem, block.size, taken, flow, adu);
    memory::store_u16(mem, 10, (taken + 1) as u16);
    write_source(out, block, taken, adu);
    Ok(adu.len() + 6)
}

// The symbol with an ESI, of the k source symbols in the memory, which stand one after the other after the header.
fn encode(out: &mut [u8], mem: &[u8], k: usize, esi: usize)
    requires { (96 + k * length out.old ≤ length mem.now) × (0 < k) × (k ≤ 255) × (esi < 255) }
    ensures { out.new ≡ symbol_from k (length out.old) mem.now esi }
{
    let mut room = [0; 255];
    let list = &mut room[..k];
    interpolation::fill(list, esi);
    sums::combine(out, list, mem, HEADER, out.len());
}

// The repair packet with an ESI, at the front of the output.
fn write_repair(out: &mut [u8], mem: &[u8], block: Block, esi: usize)
    requires { Valid block × (esi < 255) × (6 + block.size ≤ length out.old) × (96 + block.k * block.size ≤ length mem.now) }
    ensures { out.new
        ≡ splice 0 (repair_packet block esi (symbol_from block.k block.size mem.now esi)) out.old }
{
    identifier::write(out, 0, identifier_of(block, esi));
    let size = block.size;
    encode(&mut out[6..6 + size], mem, block.k, esi);
}

// Writes the repair packet with an ESI.
pub fn make_repair(mem: &[u8], esi: usize, out: &mut [u8]) -> Result<usize, Refusal>
    ensures { Makes esi mem.now out.old result out.new }
{
    let block = blocks::read_block(mem, Kind::Encoder as u16).ok_or(Refusal::Unopened)?;
    if !has_room(out.len(), block.size) {
        return Err(Refusal::Short);
    }
    if esi < block.k || block.total <= esi {
        return Err(Refusal::Block);
    }
    if (memory::load_u16(mem, 10) as usize) < block.k {
        return Err(Refusal::Empty);
    }
    write_repair(out, mem, block, esi);
    Ok(block.size + 6)
}
