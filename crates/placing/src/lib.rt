// What changes the window's equations: the window moves on, and a packet's rows join those of the window.
// And whether a position is known, which its row's first flag says.
#![tactic(auto)]

ghost use Rattle.std.specs.Prelude.{◌≡◌, ◌≤◌, ◌+◌, ◌<◌};
ghost use Rattle.std.specs.Int.{from_bool};
ghost use Rattle.words.specs.Words.{length};
ghost use Rattle.table.specs.Window.{Fits};
ghost use Rattle.placing.specs.Place.{RowsMoved, KnownAt, Committed};
ghost use Rattle.table.specs.Packet.{Works};
ghost use Rattle.table.specs.RowSteps.{flagged, Tested};
ghost use Rattle.placing.specs.PlaceSteps.{RowMarked, ClearedRow, FirstWith, NextWith, Stored, RowPlaced, KeptRow, PlacedKept, RowsPlaced};

use field::Gf256;
use table::Shape;

// The first flag of the row `r` becomes `v`.
fn set_flag(mem: &mut [u8], shape: Shape, r: usize, v: u8)
    requires { Fits shape.width shape.size mem.old × (r < shape.width) }
    ensures { mem.new ≡ flagged shape.width shape.size r v mem.old }
{
    let at = table::row_offset(shape, r);
    let n = shape.width + shape.size;
    mem[at + n] = v;
}

// The window moves on by `rise` positions: the rows of those that leave are no longer in use.
// Kept: `marks::drop_first` and `origins::fill` go over positions too, but each writes another byte; a closure for the write is no plainer.
pub fn move_on(mem: &mut [u8], shape: Shape, rise: usize)
    requires { Fits shape.width shape.size mem.old × (shape.oldest < shape.width) }
    ensures { RowsMoved shape.width shape.size shape.oldest rise mem.old mem.new }
{
    for i in 0..rise.min(shape.width) {
        set_flag(mem, shape, table::row_of(shape, i), 0);
    }
}

// Whether the symbol of the position in row `r` is known.
pub fn is_known(mem: &[u8], shape: Shape, r: usize) -> bool
    requires { Fits shape.width shape.size mem.now × (r < shape.width) }
    ensures { KnownAt shape.width shape.size r result mem.now }
{
    let at = table::row_offset(shape, r);
    let n = shape.width + shape.size;
    mem[at + n] == 2
}

// Whether the row `r` has no coefficient but its own.
fn is_alone(mem: &[u8], shape: Shape, r: usize) -> bool
    requires { Fits shape.width shape.size mem.now × (r < shape.width) }
    ensures { Tested shape.width shape.size r result mem.now }
{
    let at = table::row_offset(shape, r);
    let before = table::or_all(mem, at, at + r);
    let after = table::or_all(mem, at + (r + 1), at + shape.width);
    before | after == 0
}

// The row `r` is in use, and its flag says whether it has another coefficient. Gives whether it has none.
fn mark(mem: &mut [u8], shape: Shape, r: usize) -> bool
    requires { Fits shape.width shape.size mem.old × (r < shape.width) }
    ensures { RowMarked shape.width shape.size r result mem.old mem.new }
{
    let alone = is_alone(mem, shape, r);
    set_flag(mem, shape, r, 1 + u8::from(alone));
    alone
}

// The column `r` of the row `q` is cleared by the working row, if the row `q` is in use and has a coefficient there. Gives whether its position
// has become known.
fn clear_coefficient(mem: &mut [u8], row: &[u8], shape: Shape, r: usize, q: usize) -> bool
    requires { Fits shape.width shape.size mem.old × (length row.now ≡ shape.width + shape.size) × (r < shape.width) × (q < shape.width) }
    ensures { ClearedRow shape.width shape.size r q (from_bool result) row.now mem.old mem.new }
{
    let at = table::row_offset(shape, q);
    let n = shape.width + shape.size;
    let c = mem[at + r];
    if c == 0 || mem[at + n] == 0 {
        return false;
    }
    rows::add_part(mem, at, row, 0, n, Gf256(c));
    mark(mem, shape, q)
}

// The first row from `from` on that has a coefficient in the column `r`.
// Kept: a loop of its own, called in two places. Where one loop looked at every row and cleared it too, a new source packet took up to 1.46 times as long.
fn next_with(mem: &[u8], shape: Shape, r: usize, from: usize) -> Option<usize>
    requires { Fits shape.width shape.size mem.now × (r < shape.width) × (from ≤ shape.width) }
    ensures { NextWith shape.width shape.size r from result mem.now }
{
    for q in from..shape.width {
        let at = table::row_offset(shape, q);
        if mem[at + r] != 0 {
            return Some(q);
        }
    }
    None
}

// The working row becomes the row `r`. Gives whether its position is known.
fn store_row(mem: &mut [u8], row: &[u8], shape: Shape, r: usize) -> bool
    requires { Fits shape.width shape.size mem.old × (length row.now ≡ shape.width + shape.size) × (r < shape.width) }
    ensures { Stored shape.width shape.size r (from_bool result) row.now mem.old mem.new }
{
    let at = table::row_offset(shape, r);
    let n = shape.width + shape.size;
    memory::copy_part(mem, at, row, 0, n);
    mark(mem, shape, r)
}

// The working row becomes the row `r`, and its column is cleared in the other rows in use. Gives how many positions have become known.
fn place(mem: &mut [u8], row: &[u8], shape: Shape, r: usize) -> usize
    requires { Fits shape.width shape.size mem.old × (length row.now ≡ shape.width + shape.size) × (r < shape.width) }
    ensures { RowPlaced shape.width shape.size r result row.now mem.old mem.new }
{
    let mut count: usize = 0;
    let mut found = next_with(mem, shape, r, 0);
    while let Some(q) = found {
        count += usize::from(clear_coefficient(mem, row, shape, r, q));
        found = next_with(mem, shape, r, q + 1);
    }
    count + usize::from(store_row(mem, row, shape, r))
}

// The row `k` of working memory joins the window's rows. Gives how many positions have become known.
fn place_kept(mem: &mut [u8], work: &[u8], shape: Shape, k: usize) -> usize
    requires { Fits shape.width shape.size mem.old × KeptRow shape.width shape.size k work.now }
    ensures { PlacedKept shape.width shape.size k result work.now mem.old mem.new }
{
    let at = table::row_offset(shape, k);
    let n = shape.width + shape.size;
    let r = work[at + n] as usize;
    place(mem, memory::part(work, at, n), shape, r)
}

// The first `kept` rows of working memory join the window's rows, in order. Gives how many positions have become known.
fn place_all(mem: &mut [u8], work: &[u8], shape: Shape, kept: usize) -> usize
    requires { Fits shape.width shape.size mem.old × Works shape.width shape.size kept work.now }
    ensures { RowsPlaced shape.width shape.size kept result work.now mem.old mem.new }
{
    let mut total: usize = 0;
    for k in 0..kept {
        total += place_kept(mem, work, shape, k);
    }
    total
}

// The window moves on by `rise` positions, and the packet's rows in working memory join its rows. Gives how many positions have become known.
pub fn commit(mem: &mut [u8], work: &[u8], shape: Shape, rise: usize, kept: usize) -> usize
    requires { Fits shape.width shape.size mem.old × (shape.oldest < shape.width) × Works shape.width shape.size kept work.now }
    ensures { Committed shape.width shape.size shape.oldest rise kept result work.now mem.old mem.new }
{
    move_on(mem, shape, rise);
    place_all(mem, work, shape, kept)
}
