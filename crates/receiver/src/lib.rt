// The receiver: its sizes, opening, the two packet calls, the calls that show a symbol, and the ADU call (RFC 8681, section 3.4; document 01).
#![tactic(auto)]

ghost use Rattle.wire.specs.Opening.{SizeAnswered, receiver_memory, working_memory};
ghost use Rattle.receiver.specs.Promises.{Opened, PacketAnswered, SymbolShown, PartShown, PlaceAnswered, AduAnswered};
ghost use Rattle.history.specs.History.{source-call, repair-call};
ghost use Rattle.receiver.specs.Layout.{receiver_layout};

use admission::packet::Passed;
use admission::{packet, repair, source};
use holding::{find, front};
use wire::{Esi, Refusal, Scheme};

// What a call answers: a number (of bytes that are needed; opening: 0; the call for a symbol's place: where it starts), or a refusal.

// How many bytes of memory a receiver of symbols of `size` bytes with a window of `width` symbols needs, with either scheme.
pub fn memory_size(size: usize, width: usize) -> Result<usize, Refusal>
    ensures { SizeAnswered (receiver_memory size width) size width result }
{
    let setting = wire::setting_of(Scheme::Gf256 as usize, size, width).ok_or(Refusal::Values)?;
    Ok(front::memory_size(setting))
}

// How many bytes of working memory a packet call borrows, with either scheme.
// Kept: it differs from `memory_size` in one call, and one function that takes that as a closure is no shorter than the two.
pub fn working_size(size: usize, width: usize) -> Result<usize, Refusal>
    ensures { SizeAnswered (working_memory size width) size width result }
{
    let setting = wire::setting_of(Scheme::Gf256 as usize, size, width).ok_or(Refusal::Values)?;
    Ok(front::working_size(setting))
}

// Opens a receiver in the memory, which announces these flows.
pub fn open(
    mem: &mut [u8],
    scheme: usize,
    size: usize,
    width: usize,
    flows: &[u8; 32],
) -> Result<usize, Refusal>
    ensures { Opened receiver_layout scheme size width flows.now mem.old mem.new result }
{
    let setting = wire::setting_of(scheme, size, width).ok_or(Refusal::Values)?;
    if mem.len() < front::memory_size(setting) {
        return Err(Refusal::Short);
    }
    front::write_fresh(mem, setting);
    wire::write_flows(mem, flows);
    Ok(0)
}

// Whether the symbol with an ESI is known, and whether it was heard.
pub fn symbol(mem: &[u8], esi: Esi) -> Result<bool, Refusal>
    ensures { SymbolShown receiver_layout mem.now esi.0 result }
{
    Ok(find::find(mem, esi)?.heard)
}

// The part of the memory that holds the symbol with an ESI; empty where the symbol call refuses.
pub fn symbol_part(mem: &[u8], esi: Esi) -> &[u8]
    ensures { PartShown receiver_layout mem.entry result esi.0 }
{
    match find::find(mem, esi) {
        Ok(spot) => memory::part(mem, spot.at, spot.size),
        Err(_) => memory::part(mem, 0, 0),
    }
}

// Where in the memory the symbol with an ESI starts, or the symbol call's refusal.
pub fn symbol_place(mem: &[u8], esi: Esi) -> Result<usize, Refusal>
    ensures { PlaceAnswered receiver_layout mem.now esi.0 result }
{
    Ok(find::find(mem, esi)?.at)
}

// Hands out the ADU that starts at an ESI, with its flow, to the front of the output.
pub fn adu(mem: &[u8], esi: Esi, out: &mut [u8]) -> Result<(u8, usize), Refusal>
    ensures { AduAnswered receiver_layout mem.now esi.0 out.old out.new result }
{
    let (shape, d) = find::stand(mem, esi)?;
    handing::hand_out(mem, shape, d, out)
}

// Receives a source packet that came with a flow. The state is only read until all its symbols are known to agree with it. Gives how many
// positions of the window became known; it draws nothing.
pub fn receive_source(
    mem: &mut [u8],
    work: &mut [u8],
    flow: u8,
    packet: &[u8],
) -> Result<(usize, u32), Refusal>
    ensures { PacketAnswered receiver_layout (source-call flow packet.now)
        mem.old mem.new work.old work.new result }
{
    let Passed {
        header,
        location,
        count,
        ..
    } = source::read_source(mem, work.len(), flow, packet)?;
    let adu = &packet[..packet.len() - 4];
    let gathered = source::gather_source(mem, work, location, flow, adu, count);
    let kept = gathered.ok_or(Refusal::Contradiction)?;
    Ok((packet::accept(mem, work, header, location, kept, count), 0))
}

// Receives a repair packet. The state is only read until all its symbols are known to agree with it. Gives how many positions of the window
// became known, and the draws.
pub fn receive_repair(
    mem: &mut [u8],
    work: &mut [u8],
    packet: &[u8],
) -> Result<(usize, u32), Refusal>
    ensures { PacketAnswered receiver_layout (repair-call packet.now)
        mem.old mem.new work.old work.new result }
{
    let mut lists = coefficients::room_for_lists();
    let Passed {
        header,
        location,
        named,
        count,
        draws,
    } = repair::read_repair(mem, work.len(), packet, &mut lists)?;
    let gathered = repair::gather_repair(mem, work, &lists, packet, location, named, count);
    let kept = gathered.ok_or(Refusal::Contradiction)?;
    Ok((packet::accept(mem, work, header, location, kept, 0), draws))
}
