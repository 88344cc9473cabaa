// What stands before 11: whether the memory was opened, whether working memory is long enough, and the form of a packet.
ghost use Rattle.std.specs.Prelude.{◌≡◌, ◌≤◌};
ghost use Rattle.blocks.specs.Stored.{block_in};
ghost use Rattle.block_receiver.specs.Reading.{names, names_source, names_repair, source_check, repair_check};
ghost use Rattle.block_receiver.specs.Inner.{opened_for};

use blocks::identifier::Identifier;
use blocks::{Block, identifier};
use holding::front;
use wire::{Kind, Refusal};

// The block that the memory was opened to recover, where so many bytes of working memory are enough.
pub fn opened_for(mem: &[u8], room: usize) -> Result<Block, Refusal>
    ensures { result ≡ opened_for (block_in 4 mem.now) room }
{
    let block = blocks::read_block(mem, Kind::Recovery as u16).ok_or(Refusal::Unopened)?;
    if room < front::working_size(blocks::setting_for(block)) {
        return Err(Refusal::Short);
    }
    Ok(block)
}

// Whether an identifier names the block.
fn names(block: Block, id: Identifier) -> bool
    ensures { result ≡ names block id }
{
    id.block == block.number && id.k as usize == block.k
}

// And a source symbol of it.
fn names_source(block: Block, id: Identifier) -> bool
    ensures { result ≡ names_source block id }
{
    names(block, id) && (id.esi as usize) < block.k
}

// And a repair symbol of it.
fn names_repair(block: Block, id: Identifier) -> bool
    ensures { result ≡ names_repair block id }
{
    let esi = id.esi as usize;
    names(block, id) && block.k <= esi && esi < block.total
}

// What a source packet comes to before it is taken.
pub fn check_source(block: Block, packet: &[u8]) -> Result<usize, Refusal>
    ensures { result ≡ source_check block packet.now }
{
    let n = packet.len();
    if n < 6 {
        return Err(Refusal::Form);
    }
    let id = identifier::read(packet, n - 6);
    if !names_source(block, id) {
        return Err(Refusal::Block);
    }
    if block.size < n - 3 {
        return Err(Refusal::Long);
    }
    Ok(id.esi as usize)
}

// What a repair packet comes to before it is taken.
pub fn check_repair(block: Block, packet: &[u8]) -> Result<usize, Refusal>
    requires { block.size ≤ 1500 }
    ensures { result ≡ repair_check block packet.now }
{
    if packet.len() != 6 + block.size {
        return Err(Refusal::Form);
    }
    let id = identifier::read(packet, 0);
    if !names_repair(block, id) {
        return Err(Refusal::Block);
    }
    Ok(id.esi as usize)
}
