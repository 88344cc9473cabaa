// Handing out an ADU: its symbols are looked up in the window, its padding and its flow are checked, and its bytes are copied from where the symbols stand.
#![tactic(auto)]

ghost use Rattle.std.specs.Prelude.{◌≡◌, ◌≤◌, ◌+◌, ◌<◌};
ghost use Rattle.words.specs.Words.{length, drop};
ghost use Rattle.memory.specs.Part.{part, splice};
ghost use Rattle.table.specs.Window.{Fits};
ghost use Rattle.starts.specs.Adu.{all_zero};
ghost use Rattle.handing.specs.Promises.{HandedOut};
ghost use Rattle.handing.specs.HandSteps.{text, SymbolOf, AllKnown, Spans};

use table::Shape;
use wire::Refusal;

// Where the symbol of the i-th position of the window begins.
fn symbol_of(shape: Shape, i: usize) -> usize
    requires { (shape.oldest < shape.width) × (i < shape.width) × (shape.width ≤ 255) × (shape.size ≤ 1500) }
    ensures { SymbolOf shape.width shape.size shape.oldest i result }
{
    let r = table::row_of(shape, i);
    table::symbol_offset(shape, r)
}

// Whether the `n` positions from the d-th on are all known. None past the window is.
fn all_known(mem: &[u8], shape: Shape, d: usize, n: usize) -> bool
    requires { Fits shape.width shape.size mem.now × (shape.oldest < shape.width) × (d < shape.width) }
    ensures { AllKnown shape.width shape.size shape.oldest d n result mem.now }
{
    n <= shape.width - d
        && (d..d + n).all(|i| placing::is_known(mem, shape, table::row_of(shape, i)))
}

// Whether the padding after an ADU of `len` bytes in the `n` symbols from the d-th on is zero. Only the last symbol has any.
fn is_padded(mem: &[u8], shape: Shape, d: usize, n: usize, len: usize) -> bool
    requires { Fits shape.width shape.size mem.now × (shape.oldest < shape.width) × Spans shape.width shape.size d n len }
    ensures { result ≡ all_zero (drop (3 + len) (text shape.width shape.size shape.oldest mem.now d n)) }
{
    let before = (n - 1) * shape.size;
    let last = symbol_of(shape, d + (n - 1));
    table::or_all(mem, last + (3 + len - before), last + shape.size) == 0
}

// Copies the ADU of `len` bytes in the `n` symbols from the d-th on to the front of the output: from each symbol what it has of it, which is
// all of it but what stands before the ADU and after it.
fn copy_adu(mem: &[u8], shape: Shape, d: usize, n: usize, len: usize, out: &mut [u8])
    requires { Fits shape.width shape.size mem.now × (shape.oldest < shape.width) × Spans shape.width shape.size d n len
        × (len ≤ length out.old) }
    ensures { out.new
        ≡ splice 0 (part 3 len (text shape.width shape.size shape.oldest mem.now d n)) out.old }
{
    let mut at: usize = 0;
    let mut skip: usize = 3;
    for i in 0..n {
        let k = (shape.size - skip).min(len - at);
        let from = symbol_of(shape, d + i);
        memory::copy_part(out, at, mem, from + skip, k);
        at += k;
        skip = 0;
    }
}

// The ADU call for the d-th position of the window.
pub fn hand_out(mem: &[u8], shape: Shape, d: usize, out: &mut [u8]) -> Result<(u8, usize), Refusal>
    requires { Fits shape.width shape.size mem.now × (shape.oldest < shape.width) × (d < shape.width) }
    ensures { HandedOut shape.width shape.size shape.oldest d mem.now out.old out.new result }
{
    if !marks::is_marked(mem, shape, d) {
        return Err(Refusal::NoStart);
    }
    let r = table::row_of(shape, d);
    if !placing::is_known(mem, shape, r) {
        return Err(Refusal::Unknown);
    }
    let at = symbol_of(shape, d);
    let len = memory::load_u16(mem, at + 1) as usize;
    let n = wire::symbol_count(shape.size, len);
    if shape.width < n {
        return Err(Refusal::Padding);
    }
    if !all_known(mem, shape, d, n) {
        return Err(Refusal::Unknown);
    }
    if !is_padded(mem, shape, d, n, len) {
        return Err(Refusal::Padding);
    }
    let flow = mem[at];
    if !wire::is_announced(mem, flow) {
        return Err(Refusal::Unannounced);
    }
    if out.len() < len {
        return Err(Refusal::Short);
    }
    copy_adu(mem, shape, d, n, len, out);
    Ok((flow, len))
}
