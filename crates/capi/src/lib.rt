// The calls of sender and receiver, of a block's two ends, that for the window, those that rearrange a grid, and those that announce flows, under C names
// (include/rlc8681.h): each takes numbers, slices and the 32 bytes of the flows, that for the window a number to write, and answers one signed number; those
// that announce flows answer nothing. What a function promises is the promise of the call that it wraps, of the answer that its number codes.
#![tactic(auto)]

ghost use Rattle.std.specs.Prelude.{◌≡◌};
ghost use Rattle.latency.specs.Promises.{WindowAnswered};
ghost use Rattle.interleave.specs.Promises.{Interleaves, Deinterleaves};
ghost use Rattle.flows.specs.Promises.{Announces, AnnouncesAll};
ghost use Rattle.sender.specs.Promises.{Opens, Adds, RepairMade};
ghost use Rattle.history.specs.History.{source-call, repair-call};
ghost use Rattle.wire.specs.Answers.{said};
ghost use Rattle.wire.specs.Opening.{SizeAnswered, sender_memory, receiver_memory, working_memory};
ghost use Rattle.receiver.specs.Promises.{Opened, PacketAnswered, SymbolShown, PlaceAnswered, AduAnswered, handed_said};
ghost use Rattle.receiver.specs.Layout.{receiver_layout};
ghost use Rattle.block_encoder.specs.Promises as encoder;
ghost use Rattle.block_receiver.specs.Promises as block;
ghost use Rattle.block_receiver.specs.Layout.{block_layout};
ghost use Rattle.coding.specs.Coding.{packet_said, repair_said, symbol_said, window_said, remainder_after, Codes};

use wire::{Esi, RepairKey};

#[unsafe(no_mangle)]
pub extern "C" fn rlc_sender_memory(size: u32, width: u32) -> i64
    ensures { Codes said (SizeAnswered (sender_memory size width) size width) result }
{
    coding::coded(sender::memory_size(size as usize, width as usize))
}

#[unsafe(no_mangle)]
pub extern "C" fn rlc_receiver_memory(size: u32, width: u32) -> i64
    ensures { Codes said (SizeAnswered (receiver_memory size width) size width) result }
{
    coding::coded(receiver::memory_size(size as usize, width as usize))
}

#[unsafe(no_mangle)]
pub extern "C" fn rlc_working_memory(size: u32, width: u32) -> i64
    ensures { Codes said (SizeAnswered (working_memory size width) size width) result }
{
    coding::coded(receiver::working_size(size as usize, width as usize))
}

#[unsafe(no_mangle)]
pub extern "C" fn rlc_dw_max_size(budget: u64, bitrate: u64, size: u32, remainder: &mut u64) -> i64
    ensures { Codes window_said
        (λ a. WindowAnswered budget bitrate size a × (remainder.new ≡ remainder_after a remainder.old)) result }
{
    coding::coded_window(
        latency::dw_max_size(budget, bitrate, size as usize),
        remainder,
    )
}

#[unsafe(no_mangle)]
pub extern "C" fn rlc_interleave(
    src: &[u8],
    size: u32,
    rows: u32,
    columns: u32,
    out: &mut [u8],
) -> i64
    ensures { Codes said
        (λ a. Interleaves size rows columns src.now out.old a out.new) result }
{
    coding::coded(interleave::interleave(src, size as usize, rows as usize, columns as usize, out))
}

#[unsafe(no_mangle)]
pub extern "C" fn rlc_deinterleave(
    src: &[u8],
    size: u32,
    rows: u32,
    columns: u32,
    out: &mut [u8],
) -> i64
    ensures { Codes said
        (λ a. Deinterleaves size rows columns src.now out.old a out.new) result }
{
    coding::coded(interleave::deinterleave(
        src,
        size as usize,
        rows as usize,
        columns as usize,
        out,
    ))
}

#[unsafe(no_mangle)]
pub extern "C" fn rlc_announce(flows: &mut [u8; 32], flow: u8)
    ensures { Announces flow flows.old flows.new }
{
    flows::announce(flows, flow);
}

#[unsafe(no_mangle)]
pub extern "C" fn rlc_announce_all(flows: &mut [u8; 32])
    ensures { AnnouncesAll flows.new }
{
    flows::announce_all(flows);
}

#[unsafe(no_mangle)]
pub extern "C" fn rlc_sender_open(
    memory: &mut [u8],
    scheme: u32,
    size: u32,
    width: u32,
    flows: &[u8; 32],
) -> i64
    ensures { Codes said (λ a. Opens scheme size width flows.now memory.old a memory.new) result }
{
    coding::coded(sender::open(
        memory,
        scheme as usize,
        size as usize,
        width as usize,
        flows,
    ))
}

#[unsafe(no_mangle)]
pub extern "C" fn rlc_sender_add_adu(memory: &mut [u8], flow: u8, adu: &[u8], out: &mut [u8]) -> i64
    ensures { Codes said
        (λ a. Adds flow adu.now memory.old out.old a memory.new out.new) result }
{
    coding::coded(sender::add_adu(memory, flow, adu, out))
}

#[unsafe(no_mangle)]
pub extern "C" fn rlc_sender_make_repair(
    memory: &[u8],
    key: u16,
    dt: u32,
    count: u32,
    out: &mut [u8],
) -> i64
    ensures { Codes repair_said (λ a. RepairMade key dt count memory.now out.old a out.new) result }
{
    coding::coded(sender::make_repair(memory, RepairKey(key), dt as usize, count as usize, out))
}

#[unsafe(no_mangle)]
pub extern "C" fn rlc_receiver_open(
    memory: &mut [u8],
    scheme: u32,
    size: u32,
    width: u32,
    flows: &[u8; 32],
) -> i64
    ensures { Codes said
        (Opened receiver_layout scheme size width flows.now memory.old memory.new) result }
{
    coding::coded(receiver::open(
        memory,
        scheme as usize,
        size as usize,
        width as usize,
        flows,
    ))
}

#[unsafe(no_mangle)]
pub extern "C" fn rlc_receive_source(
    memory: &mut [u8],
    work: &mut [u8],
    flow: u8,
    packet: &[u8],
) -> i64
    ensures { Codes packet_said (PacketAnswered receiver_layout (source-call flow packet.now)
        memory.old memory.new work.old work.new) result }
{
    coding::coded(receiver::receive_source(memory, work, flow, packet))
}

#[unsafe(no_mangle)]
pub extern "C" fn rlc_receive_repair(memory: &mut [u8], work: &mut [u8], packet: &[u8]) -> i64
    ensures { Codes packet_said (PacketAnswered receiver_layout (repair-call packet.now)
        memory.old memory.new work.old work.new) result }
{
    coding::coded(receiver::receive_repair(memory, work, packet))
}

#[unsafe(no_mangle)]
pub extern "C" fn rlc_symbol(memory: &[u8], esi: u32) -> i64
    ensures { Codes symbol_said (SymbolShown receiver_layout memory.now esi) result }
{
    coding::coded(receiver::symbol(memory, Esi(esi)))
}

#[unsafe(no_mangle)]
pub extern "C" fn rlc_symbol_place(memory: &[u8], esi: u32) -> i64
    ensures { Codes said (PlaceAnswered receiver_layout memory.now esi) result }
{
    coding::coded(receiver::symbol_place(memory, Esi(esi)))
}

#[unsafe(no_mangle)]
pub extern "C" fn rlc_adu(memory: &[u8], esi: u32, out: &mut [u8]) -> i64
    ensures { Codes handed_said (AduAnswered receiver_layout memory.now esi out.old out.new) result }
{
    coding::coded(receiver::adu(memory, Esi(esi), out))
}

#[unsafe(no_mangle)]
pub extern "C" fn rlc_block_open_encoder(
    memory: &mut [u8],
    size: u32,
    k: u32,
    total: u32,
    number: u32,
) -> i64
    ensures { Codes said (λ a. encoder.Opens size k total number memory.old a memory.new) result }
{
    coding::coded(block_encoder::open(
        memory,
        size as usize,
        k as usize,
        total as usize,
        number as usize,
    ))
}

#[unsafe(no_mangle)]
pub extern "C" fn rlc_block_add_adu(memory: &mut [u8], flow: u8, adu: &[u8], out: &mut [u8]) -> i64
    ensures { Codes said
        (λ a. encoder.Adds flow adu.now memory.old out.old a memory.new out.new) result }
{
    coding::coded(block_encoder::add_adu(memory, flow, adu, out))
}

#[unsafe(no_mangle)]
pub extern "C" fn rlc_block_make_repair(memory: &[u8], esi: u32, out: &mut [u8]) -> i64
    ensures { Codes said (λ a. encoder.Makes esi memory.now out.old a out.new) result }
{
    coding::coded(block_encoder::make_repair(memory, esi as usize, out))
}

#[unsafe(no_mangle)]
pub extern "C" fn rlc_block_open_recovery(
    memory: &mut [u8],
    size: u32,
    k: u32,
    total: u32,
    number: u32,
) -> i64
    ensures { Codes said (block.Opened block_layout size k total number memory.old memory.new) result }
{
    coding::coded(block_receiver::open(
        memory,
        size as usize,
        k as usize,
        total as usize,
        number as usize,
    ))
}

#[unsafe(no_mangle)]
pub extern "C" fn rlc_block_receive_source(
    memory: &mut [u8],
    work: &mut [u8],
    flow: u8,
    packet: &[u8],
) -> i64
    ensures { Codes packet_said (block.PacketAnswered block_layout (source-call flow packet.now)
        memory.old memory.new work.old work.new) result }
{
    coding::coded(block_receiver::receive_source(memory, work, flow, packet))
}

#[unsafe(no_mangle)]
pub extern "C" fn rlc_block_receive_repair(memory: &mut [u8], work: &mut [u8], packet: &[u8]) -> i64
    ensures { Codes packet_said (block.PacketAnswered block_layout (repair-call packet.now)
        memory.old memory.new work.old work.new) result }
{
    coding::coded(block_receiver::receive_repair(memory, work, packet))
}

#[unsafe(no_mangle)]
pub extern "C" fn rlc_block_symbol(memory: &[u8], esi: u32) -> i64
    ensures { Codes symbol_said (block.SymbolShown block_layout memory.now esi) result }
{
    coding::coded(block_receiver::symbol(memory, esi as usize))
}

#[unsafe(no_mangle)]
pub extern "C" fn rlc_block_symbol_place(memory: &[u8], esi: u32) -> i64
    ensures { Codes said (block.PlaceAnswered block_layout memory.now esi) result }
{
    coding::coded(block_receiver::symbol_place(memory, esi as usize))
}
