// The row operations, the send order of a grid, and the calls of sender, receiver and a block's two ends under C names, for the drivers of bench/. A row
// operation whose lengths do not fit does nothing.
#![tactic(auto)]

ghost use Rattle.std.specs.Prelude.{◌≡◌, ◌<◌, ◌≤◌, ◌*◌, IfSome};
ghost use Rattle.words.specs.Words.{length};
ghost use Rattle.rows.specs.Rows.{add_scaled};
ghost use Rattle.table.specs.Window.{Fits};

use field::Gf256;
use table::Shape;
use wire::{Esi, Refusal, RepairKey};

// dst becomes src.
#[unsafe(no_mangle)]
pub extern "C" fn bench_copy(dst: &mut [u8], src: &[u8]) {
    if dst.len() != src.len() {
        return;
    }
    memory::copy(dst, src);
}

// dst becomes dst + c * src.
#[unsafe(no_mangle)]
pub extern "C" fn bench_add_scaled(dst: &mut [u8], src: &[u8], c: u8) {
    if dst.len() != src.len() {
        return;
    }
    rows::add_scaled(dst, src, Gf256(c));
}

// The same, each product from the two tables.
fn add_by_tables(dst: &mut [u8], src: &[u8], c: u8)
    requires { length dst.old ≡ length src.now }
    ensures { dst.new ≡ add_scaled c dst.old src.now }
{
    for (i, d) in dst.iter_mut().enumerate() {
        *d = (Gf256(*d) + Gf256(c) * Gf256(src[i])).0;
    }
}

#[unsafe(no_mangle)]
pub extern "C" fn bench_add_by_tables(dst: &mut [u8], src: &[u8], c: u8) {
    if dst.len() != src.len() {
        return;
    }
    add_by_tables(dst, src, c);
}

// The n bytes of mem from a on become themselves + c * (the n bytes of mem from b on).
#[unsafe(no_mangle)]
pub extern "C" fn bench_add_within(mem: &mut [u8], a: usize, b: usize, n: usize, c: u8) {
    if mem.len() < n || mem.len() - n < a || a < n || a - n < b {
        return;
    }
    rows::add_within(mem, a, b, n, Gf256(c));
}

// How many bytes a row of mem has, where the rows fill it, one for each coefficient, and are no shorter than dst.
fn row_size(dst: &[u8], cs: &[u8], mem: &[u8]) -> Option<usize>
    ensures { IfSome result (λ s. (length dst.now ≤ s) × (length cs.now * s ≤ length mem.now)) }
{
    if cs.len() == 0 {
        return None;
    }
    let s = mem.len() / cs.len();
    if s < dst.len() { None } else { Some(s) }
}

// dst becomes the sum of the rows of mem, row k times cs[k]. The rows fill mem.
#[unsafe(no_mangle)]
pub extern "C" fn bench_combine(dst: &mut [u8], cs: &[u8], mem: &[u8]) {
    if let Some(s) = row_size(dst, cs, mem) {
        sums::combine(dst, cs, mem, 0, s);
    }
}

// dst becomes dst + the same.
#[unsafe(no_mangle)]
pub extern "C" fn bench_add_combination(dst: &mut [u8], cs: &[u8], mem: &[u8]) {
    if let Some(s) = row_size(dst, cs, mem) {
        sums::add_combination(dst, cs, mem, 0, s);
    }
}

// What stands for a refusal: a number that no call of the drivers answers.
const REFUSED: usize = 1000000;

// A number below 2^32 and the draws beside it, as the C interface has them.
fn counted(answer: Result<(usize, u32), Refusal>) -> usize {
    match answer {
        Ok((n, draws)) if n < 4294967296 => n + 4294967296 * draws as usize,
        _ => REFUSED,
    }
}

#[unsafe(no_mangle)]
pub extern "C" fn bench_interleave(
    src: &[u8],
    size: usize,
    rows: usize,
    columns: usize,
    out: &mut [u8],
) -> usize {
    interleave::interleave(src, size, rows, columns, out).unwrap_or(REFUSED)
}

#[unsafe(no_mangle)]
pub extern "C" fn bench_sender_open(
    mem: &mut [u8],
    scheme: usize,
    size: usize,
    width: usize,
    flows: &[u8; 32],
) -> usize {
    sender::open(mem, scheme, size, width, flows).unwrap_or(REFUSED)
}

#[unsafe(no_mangle)]
pub extern "C" fn bench_add_adu(mem: &mut [u8], flow: u8, adu: &[u8], out: &mut [u8]) -> usize {
    sender::add_adu(mem, flow, adu, out).unwrap_or(REFUSED)
}

#[unsafe(no_mangle)]
pub extern "C" fn bench_make_repair(
    mem: &[u8],
    key: u16,
    dt: usize,
    count: usize,
    out: &mut [u8],
) -> usize {
    counted(sender::make_repair(mem, RepairKey(key), dt, count, out))
}

#[unsafe(no_mangle)]
pub extern "C" fn bench_receiver_open(
    mem: &mut [u8],
    scheme: usize,
    size: usize,
    width: usize,
    flows: &[u8; 32],
) -> usize {
    receiver::open(mem, scheme, size, width, flows).unwrap_or(REFUSED)
}

#[unsafe(no_mangle)]
pub extern "C" fn bench_receive_source(
    mem: &mut [u8],
    work: &mut [u8],
    flow: u8,
    packet: &[u8],
) -> usize {
    counted(receiver::receive_source(mem, work, flow, packet))
}

#[unsafe(no_mangle)]
pub extern "C" fn bench_receive_repair(mem: &mut [u8], work: &mut [u8], packet: &[u8]) -> usize {
    counted(receiver::receive_repair(mem, work, packet))
}

// 0 for a known symbol, and 2^32 more where it was heard.
#[unsafe(no_mangle)]
pub extern "C" fn bench_symbol(mem: &[u8], esi: u32) -> usize {
    match receiver::symbol(mem, Esi(esi)) {
        Ok(true) => 4294967296,
        Ok(false) => 0,
        Err(_) => REFUSED,
    }
}

// The length of the ADU that is handed out.
#[unsafe(no_mangle)]
pub extern "C" fn bench_adu(mem: &[u8], esi: u32, out: &mut [u8]) -> usize {
    receiver::adu(mem, Esi(esi), out).map_or(REFUSED, |(_, n)| n)
}

// The work on marks in the call for a new source packet of one symbol, at a receiver whose window began in the row `oldest`.
fn mark_new(mem: &mut [u8], size: usize, width: usize, oldest: usize)
    requires { Fits width size mem.old × (oldest < width) }
{
    let before = Shape {
        width,
        size,
        oldest,
    };
    let shape = Shape {
        width,
        size,
        oldest: (oldest + 1) % width,
    };
    let had = marks::known_among(mem, before, width, 1);
    let has = marks::known_among(mem, shape, width - 1, 1);
    marks::update(mem, shape, oldest, 1, width - 1, 1, has < had);
}

#[unsafe(no_mangle)]
pub extern "C" fn bench_marks(mem: &mut [u8], size: usize, width: usize, oldest: usize) {
    if size < 4 || 1500 < size || 255 < width || width <= oldest {
        return;
    }
    let shape = Shape {
        width,
        size,
        oldest,
    };
    if mem.len() < table::row_offset(shape, width) {
        return;
    }
    mark_new(mem, size, width, oldest);
}

// The coefficients of the symbol with an ESI in a block of as many source symbols as `out` has bytes.
#[unsafe(no_mangle)]
pub extern "C" fn bench_block_fill(out: &mut [u8], esi: usize) {
    if out.len() == 0 || 255 < out.len() || 255 <= esi {
        return;
    }
    interpolation::fill(out, esi);
}

#[unsafe(no_mangle)]
pub extern "C" fn bench_block_open_encoder(
    mem: &mut [u8],
    size: usize,
    k: usize,
    total: usize,
    number: usize,
) -> usize {
    block_encoder::open(mem, size, k, total, number).unwrap_or(REFUSED)
}

#[unsafe(no_mangle)]
pub extern "C" fn bench_block_add_adu(
    mem: &mut [u8],
    flow: u8,
    adu: &[u8],
    out: &mut [u8],
) -> usize {
    block_encoder::add_adu(mem, flow, adu, out).unwrap_or(REFUSED)
}

#[unsafe(no_mangle)]
pub extern "C" fn bench_block_make_repair(mem: &[u8], esi: usize, out: &mut [u8]) -> usize {
    block_encoder::make_repair(mem, esi, out).unwrap_or(REFUSED)
}

#[unsafe(no_mangle)]
pub extern "C" fn bench_block_open_recovery(
    mem: &mut [u8],
    size: usize,
    k: usize,
    total: usize,
    number: usize,
) -> usize {
    block_receiver::open(mem, size, k, total, number).unwrap_or(REFUSED)
}

#[unsafe(no_mangle)]
pub extern "C" fn bench_block_receive_source(
    mem: &mut [u8],
    work: &mut [u8],
    flow: u8,
    packet: &[u8],
) -> usize {
    counted(block_receiver::receive_source(mem, work, flow, packet))
}

#[unsafe(no_mangle)]
pub extern "C" fn bench_block_receive_repair(
    mem: &mut [u8],
    work: &mut [u8],
    packet: &[u8],
) -> usize {
    counted(block_receiver::receive_repair(mem, work, packet))
}
