// An equation of a packet in working memory. It is laid in a row, reduced there by the state's rows that stay and by the packet's rows before
// it, and kept as the packet's next row, unless it is implied by these or contradicts them. The state is only read.
#![tactic(auto)]

ghost use Rattle.std.specs.Prelude.{◌≡◌, ◌≤◌, ◌+◌, ◌<◌, ◌%◌};
ghost use Rattle.words.specs.Words.{length, take};
ghost use Rattle.table.specs.Window.{row, in_use, Fits};
ghost use Rattle.table.specs.Packet.{Works};
ghost use Rattle.gather.specs.Gather.{LaidIn, Admitted};
ghost use Rattle.gather.specs.GatherSteps.{if_used, Collected, RowsAdded, StateReduced, Eliminated, PacketReduced, Searched, Normalised, Concluded};
ghost use Rattle.gather.specs.GatherSteps.{ZeroIf, Staying, Divided};

use field::Gf256;
use table::Shape;

// What becomes of an equation: it is kept, it is implied by the others, or it contradicts them.
#[derive(Clone, Copy)]
pub enum Verdict {
    Kept,
    Implied,
    Contradiction,
}

// Lays the coefficients in the row `k` of working memory, in the columns from `first` on; the other columns become zero.
pub fn lay(work: &mut [u8], coefficients: &[u8], shape: Shape, k: usize, first: usize)
    requires { Works shape.width shape.size k work.old × (first < shape.width) × (length coefficients.now ≤ shape.width) }
    ensures { LaidIn shape.width shape.size k first coefficients.now work.old work.new }
{
    let w = shape.width;
    let at = table::row_offset(shape, k);
    let n = coefficients.len();
    let end = w - first;
    memory::fill_part(work, at, w, 0);
    if n <= end {
        memory::copy_part(work, at + first, coefficients, 0, n);
        return;
    }
    memory::copy_part(work, at + first, coefficients, 0, end);
    memory::copy_part(work, at, coefficients, end, n - end);
}

// What the state's row of the column `c` is added with to an equation whose coefficient there is `k`.
fn multiplier(mem: &[u8], shape: Shape, c: usize, k: u8) -> u8
    requires { Fits shape.width shape.size mem.now × (c < shape.width) }
    ensures { result ≡ if_used (in_use shape.width shape.size (row shape.width shape.size c mem.now)) k }
{
    if k == 0 {
        return 0;
    }
    let at = table::row_offset(shape, c);
    if mem[at + (shape.width + shape.size)] == 0 {
        return 0;
    }
    k
}

// The multipliers of the state's rows for the `n` columns from `first` on of the equation, by row. Gives whether any is not zero.
fn collect(
    mem: &[u8],
    equation: &[u8],
    multipliers: &mut [u8],
    shape: Shape,
    first: usize,
    n: usize,
) -> bool
    requires { Fits shape.width shape.size mem.now × (length equation.now ≡ shape.width)
        × (shape.width ≤ length multipliers.old) × (first < shape.width) × (n ≤ shape.width) }
    ensures { Collected shape.width shape.size first n result mem.now equation.now
        multipliers.old multipliers.new }
{
    let mut any = false;
    for i in 0..n {
        let c = table::row_after(shape, first, i);
        let k = multiplier(mem, shape, c, equation[c]);
        multipliers[c] = k;
        any |= k != 0;
    }
    any
}

// Adds to the row `k` of working memory the sum of the state's rows, each times its multiplier.
fn add_rows(mem: &[u8], work: &mut [u8], multipliers: &[u8], shape: Shape, k: usize)
    requires { Fits shape.width shape.size mem.now × Works shape.width shape.size k work.old
        × (shape.width ≤ length multipliers.now) }
    ensures { RowsAdded shape.width shape.size k (take shape.width multipliers.now)
        mem.now work.old work.new }
{
    let w = shape.width;
    let n = w + shape.size;
    let at = table::row_offset(shape, k);
    let first = table::row_offset(shape, 0);
    let stride = table::stride(shape);
    sums::add_combination(&mut work[at..at + n], &multipliers[..w], mem, first, stride);
}

// Reduces the row `k` of working memory by the state's row of the column `c`. Gives false only if the row is zero then.
fn reduce_column(mem: &[u8], work: &mut [u8], shape: Shape, k: usize, c: usize) -> bool
    requires { Fits shape.width shape.size mem.now × Works shape.width shape.size k work.old × (c < shape.width) }
    ensures { StateReduced shape.width shape.size k c 1 mem.now work.old work.new
        × ZeroIf shape.width shape.size k result work.new }
{
    let n = shape.width + shape.size;
    let at = table::row_offset(shape, k);
    let from = table::row_offset(shape, c);
    let factor = multiplier(mem, shape, c, work[at + c]);
    if factor == 1 {
        return rows::add_part_or(work, at, mem, from, n) != 0;
    }
    rows::add_part(work, at, mem, from, n, Gf256(factor));
    true
}

// Reduces the row `k` of working memory by the state's rows of `n` of its columns, from `first` on. Since the state is reduced, the multipliers
// are the coefficients that the row has before.
fn reduce_columns(mem: &[u8], work: &mut [u8], shape: Shape, k: usize, first: usize, n: usize)
    requires { Fits shape.width shape.size mem.now × Works shape.width shape.size k work.old
        × (first < shape.width) × (n ≤ shape.width) }
    ensures { StateReduced shape.width shape.size k first n mem.now work.old work.new }
{
    let w = shape.width;
    let at = table::row_offset(shape, k);
    let mut multipliers = [0u8; 255];
    if collect(mem, &work[at..at + w], &mut multipliers, shape, first, n) {
        add_rows(mem, work, &multipliers, shape, k);
    }
}

// The same; no multipliers are laid out for one column, as a source packet of one symbol has. Gives false only if the row is zero then.
fn reduce(mem: &[u8], work: &mut [u8], shape: Shape, k: usize, first: usize, n: usize) -> bool
    requires { Fits shape.width shape.size mem.now × Works shape.width shape.size k work.old
        × (first < shape.width) × (n ≤ shape.width) }
    ensures { StateReduced shape.width shape.size k first n mem.now work.old work.new
        × ZeroIf shape.width shape.size k result work.new }
{
    if n == 0 {
        return true;
    }
    if n == 1 {
        return reduce_column(mem, work, shape, k, first);
    }
    reduce_columns(mem, work, shape, k, first, n);
    true
}

// Eliminates the pivot of the row `j` of working memory from the row `k`.
fn eliminate(work: &mut [u8], shape: Shape, k: usize, j: usize)
    requires { Works shape.width shape.size k work.old × (j < k) }
    ensures { Eliminated shape.width shape.size k j work.old work.new }
{
    let n = shape.width + shape.size;
    let at = table::row_offset(shape, k);
    let from = table::row_offset(shape, j);
    let c = work[from + n] as usize;
    let factor = work[at + c];
    rows::add_within(work, at, from, n, Gf256(factor));
}

// Eliminates the pivots of the packet's rows before it from the row `k`, in order of arrival.
fn reduce_within(work: &mut [u8], shape: Shape, k: usize)
    requires { Works shape.width shape.size k work.old }
    ensures { PacketReduced shape.width shape.size k k work.old work.new }
{
    for j in 0..k {
        eliminate(work, shape, k, j);
    }
}

// The first of the rows from `from` on and before `to` that has a coefficient, and the column of its first from the column `first` on. A row
// whose coefficients or-ed are zero is not searched; the first column is looked at before that.
fn find_pivot(
    work: &[u8],
    shape: Shape,
    first: usize,
    from: usize,
    to: usize,
) -> Option<(usize, usize)>
    requires { Works shape.width shape.size 0 work.now × (first < shape.width) × (from ≤ to) × (to ≤ shape.width) }
    ensures { Searched shape.width shape.size first from to result work.now }
{
    let mut r = from;
    'rows: loop {
        if r == to {
            break None;
        }
        let at = table::row_offset(shape, r);
        if work[at + first] == 0 && table::or_all(work, at, at + shape.width) == 0 {
            r += 1;
            continue;
        }
        for i in 0..shape.width {
            let column = table::row_after(shape, first, i);
            if work[at + column] != 0 {
                break 'rows Some((r, column));
            }
        }
        r += 1;
    }
}

// Divides the `n` bytes from `at` on by `k`. For one it looks up no inverse.
fn divide(work: &mut [u8], at: usize, n: usize, k: u8)
    requires { at + n ≤ length work.old }
    ensures { Divided at n k work.old work.new }
{
    if k == 1 {
        return;
    }
    rows::scale_part(work, at, n, Gf256(k).inverse());
}

// Makes the coefficient of the row `k` in the column `c` one, and marks it as the row's pivot.
fn normalise(work: &mut [u8], shape: Shape, k: usize, c: usize)
    requires { Works shape.width shape.size k work.old × (c < shape.width) }
    ensures { Normalised shape.width shape.size k c work.old work.new }
{
    let n = shape.width + shape.size;
    let at = table::row_offset(shape, k);
    let factor = work[at + c];
    divide(work, at, n, factor);
    work[at + n] = c as u8;
}

// What becomes of the reduced equation in the row `k`, which has no coefficient older than the column `first`. All `w` rows leave none at all,
// so there is none to look for in one more.
fn settle(work: &mut [u8], shape: Shape, k: usize, first: usize) -> Verdict
    requires { Works shape.width shape.size k work.old × (first < shape.width) }
    ensures { Concluded shape.width shape.size first k result work.old work.new }
{
    let w = shape.width;
    if let Some((r, c)) = find_pivot(work, shape, first, k, w.min(k + 1)) {
        normalise(work, shape, r, c);
        return Verdict::Kept;
    }
    let symbol = table::row_offset(shape, k) + w;
    if table::or_all(work, symbol, symbol + shape.size) == 0 {
        return Verdict::Implied;
    }
    Verdict::Contradiction
}

// How many columns after the base the column `c` comes.
fn distance(shape: Shape, c: usize) -> usize
    requires { (shape.oldest < shape.width) × (c < shape.width) × (shape.width ≤ 255) }
    ensures { (result < shape.width) × ((shape.oldest + result) % shape.width ≡ c) }
{
    if shape.oldest <= c {
        c - shape.oldest
    } else {
        c + shape.width - shape.oldest
    }
}

// How many of the `count` columns from `first` on are of positions that stay: of the first `stay` from the base on.
fn staying(shape: Shape, first: usize, count: usize, stay: usize) -> usize
    requires { (shape.oldest < shape.width) × (first < shape.width) × (shape.width ≤ 255) }
    ensures { Staying shape.width shape.oldest first count stay result }
{
    let d = distance(shape, first);
    count.min(stay.saturating_sub(d))
}

// The equation in the row `kept` of working memory, with coefficients in the `count` columns from `first` on, for the window from `shape.oldest`
// on, of whose positions the first `stay` are of the state.
pub fn admit(
    mem: &[u8],
    work: &mut [u8],
    shape: Shape,
    stay: usize,
    kept: usize,
    first: usize,
    count: usize,
) -> Verdict
    requires { Fits shape.width shape.size mem.now × Works shape.width shape.size kept work.old
        × (shape.oldest < shape.width) × (first < shape.width) × (count ≤ shape.width) }
    ensures { Admitted shape.width shape.size shape.oldest stay kept first count result
        mem.now work.old work.new }
{
    let n = staying(shape, first, count, stay);
    let any = reduce(mem, work, shape, kept, first, n);
    if kept == 0 && !any {
        Verdict::Implied
    } else {
        reduce_within(work, shape, kept);
        settle(work, shape, kept, first)
    }
}
