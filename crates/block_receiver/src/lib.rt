// A block that is recovered (RFC 6865 with the code of RFC 5510; document 02, No. 9): opening, the two packet calls, and the calls that show a symbol.
// Its packets are equations of its k source symbols, in the memory of a receiver of width k: the positions are 0 to k - 1, so the base is 0 and no row
// leaves.
#![tactic(auto)]

ghost use Rattle.history.specs.History.{source-call, repair-call};
ghost use Rattle.block_receiver.specs.Promises.{Opened, PacketAnswered, SymbolShown, PartShown, PlaceAnswered};
ghost use Rattle.block_receiver.specs.Layout.{block_layout};
ghost use Rattle.block_receiver.specs.Inner.{Spotted};

mod check;
mod take;

use holding::Spot;
use wire::{Kind, Refusal, Scheme};

// What a call answers: a number (opening: 0; the call for a symbol's place: where it starts; a packet call: how many source symbols became known, with no
// draws), or whether a symbol was heard; or a refusal.

// Opens the memory to recover a block: it is that of a fresh receiver that announces no flow, as none is looked up, with the header of the block.
pub fn open(
    mem: &mut [u8],
    size: usize,
    k: usize,
    total: usize,
    number: usize,
) -> Result<usize, Refusal>
    ensures { Opened block_layout size k total number mem.old mem.new result }
{
    let block = blocks::block_of(size, k, total, number)?;
    receiver::open(mem, Scheme::Gf256 as usize, size, k, &[0; 32])?;
    blocks::write_block(mem, Kind::Recovery as u16, block);
    Ok(0)
}

// Receives a source packet that came with a flow. The memory is only read until its symbol is known to agree with it. Gives how many source symbols
// became known.
pub fn receive_source(
    mem: &mut [u8],
    work: &mut [u8],
    flow: u8,
    packet: &[u8],
) -> Result<(usize, u32), Refusal>
    ensures { PacketAnswered block_layout (source-call flow packet.now)
        mem.old mem.new work.old work.new result }
{
    let block = check::opened_for(mem, work.len())?;
    let esi = check::check_source(block, packet)?;
    let adu = memory::part(packet, 0, packet.len() - 6);
    take::lay_source(work, block, esi, flow, adu);
    take::take(mem, work, block, esi, 1)
}

// Receives a repair packet. The memory is only read until its symbol is known to agree with it. Gives how many source symbols became known.
// Kept: what it shares with a source packet are the two functions that it calls first and last; the check, the equation and the symbols heard differ.
pub fn receive_repair(
    mem: &mut [u8],
    work: &mut [u8],
    packet: &[u8],
) -> Result<(usize, u32), Refusal>
    ensures { PacketAnswered block_layout (repair-call packet.now)
        mem.old mem.new work.old work.new result }
{
    let block = check::opened_for(mem, work.len())?;
    let esi = check::check_repair(block, packet)?;
    let symbol = memory::part(packet, 6, block.size);
    take::lay_repair(work, block, esi, symbol);
    take::take(mem, work, block, 0, 0)
}

// Finds the source symbol with an ESI.
fn find(mem: &[u8], esi: usize) -> Result<Spot, Refusal>
    ensures { Spotted mem.now esi result }
{
    let block = blocks::read_block(mem, Kind::Recovery as u16).ok_or(Refusal::Unopened)?;
    let shape = take::shape_of(block);
    if block.k <= esi || !placing::is_known(mem, shape, esi) {
        return Err(Refusal::Unknown);
    }
    let heard = origins::is_heard(mem, shape, esi);
    Ok(Spot {
        at: table::symbol_offset(shape, esi),
        size: block.size,
        heard,
    })
}

// Whether the source symbol with an ESI is known, and whether it was heard.
pub fn symbol(mem: &[u8], esi: usize) -> Result<bool, Refusal>
    ensures { SymbolShown block_layout mem.now esi result }
{
    let spot = find(mem, esi)?;
    Ok(spot.heard)
}

// The part of the memory that holds the source symbol with an ESI; empty where the symbol call refuses.
pub fn symbol_part(mem: &[u8], esi: usize) -> &[u8]
    ensures { PartShown block_layout mem.entry result esi }
{
    match find(mem, esi) {
        Ok(spot) => memory::part(mem, spot.at, spot.size),
        Err(_) => memory::part(mem, 0, 0),
    }
}

// Where in the memory the source symbol with an ESI starts, or the symbol call's refusal.
pub fn symbol_place(mem: &[u8], esi: usize) -> Result<usize, Refusal>
    ensures { PlaceAnswered block_layout mem.now esi result }
{
    let spot = find(mem, esi)?;
    Ok(spot.at)
}
