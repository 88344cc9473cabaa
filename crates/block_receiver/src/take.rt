// Taking a packet: its equation is laid in the first row of working memory, joins those of the memory unless it contradicts them, and a source symbol is
// heard.
ghost use Rattle.std.specs.Prelude.{◌≡◌, ◌≤◌, ◌+◌, ◌<◌};
ghost use Rattle.words.specs.Words.{length};
ghost use Rattle.wire.specs.Packets.{symbol_at};
ghost use Rattle.table.specs.Window.{Fits};
ghost use Rattle.table.specs.Packet.{Works};
ghost use Rattle.blocks.specs.Block.{Valid};
ghost use Rattle.block_receiver.specs.Inner.{shape_of, row_with, Inserted, Ready, Took};

use blocks::{Block, HEADER};
use gather::Verdict;
use table::Shape;
use wire::Refusal;

// The shape of a block's window.
pub fn shape_of(block: Block) -> Shape
    ensures { result ≡ shape_of block }
{
    Shape {
        width: block.k,
        size: block.size,
        oldest: 0,
    }
}

// The equation of a source packet: the coefficients of its ESI, and the first symbol of its ADUI.
pub fn lay_source(work: &mut [u8], block: Block, esi: usize, flow: u8, adu: &[u8])
    requires { Valid block × Works block.k block.size 0 work.old × (esi < 255) × (3 + length adu.now ≤ block.size) }
    ensures { work.new ≡ row_with block.k esi (symbol_at flow adu.now block.size 0) work.old }
{
    let k = block.k;
    let size = block.size;
    interpolation::fill_part(work, HEADER, k, esi);
    let at = HEADER + k;
    wire::write_symbol(&mut work[at..at + size], flow, adu, 0);
}

// The equation of a repair packet: the coefficients of its ESI, and its symbol.
// Kept: it shares one call with the equation of a source packet, whose symbol is written from its parts, not copied; one function for both is longer.
pub fn lay_repair(work: &mut [u8], block: Block, esi: usize, symbol: &[u8])
    requires { Valid block × Works block.k block.size 0 work.old × (esi < 255) × (length symbol.now ≡ block.size) }
    ensures { work.new ≡ row_with block.k esi symbol.now work.old }
{
    let k = block.k;
    interpolation::fill_part(work, HEADER, k, esi);
    memory::copy_part(work, HEADER + k, symbol, 0, symbol.len());
}

// The equation in the first row of working memory joins those of the memory, which is only read until the equation is known to agree.
fn insert(mem: &mut [u8], work: &mut [u8], shape: Shape) -> Option<usize>
    requires { Fits shape.width shape.size mem.old × Works shape.width shape.size 0 work.old × (shape.oldest ≡ 0) }
    ensures { Inserted shape.width shape.size mem.old mem.new work.old work.new result }
{
    let k = shape.width;
    match gather::admit(mem, work, shape, k, 0, 0, k) {
        Verdict::Kept => Some(placing::commit(mem, work, shape, 0, 1)),
        Verdict::Implied => Some(0),
        Verdict::Contradiction => None,
    }
}

// The same, with `own` source symbols of the packet's own from `first` on, which are heard then.
pub fn take(
    mem: &mut [u8],
    work: &mut [u8],
    block: Block,
    first: usize,
    own: usize,
) -> Result<(usize, u32), Refusal>
    requires { Ready block mem.old work.old × (first + own ≤ block.k) }
    ensures { Took block first own mem.old mem.new work.old work.new result }
{
    let shape = shape_of(block);
    let n = insert(mem, work, shape).ok_or(Refusal::Contradiction)?;
    origins::update(mem, shape, block.k, first, own);
    Ok((n, 0))
}
