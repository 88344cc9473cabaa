// Which positions of the window a source packet has brought: one byte for each row, past the rows.
#![tactic(auto)]

ghost use Rattle.std.specs.Prelude.{◌≡◌, ◌≤◌, ◌+◌, ◌<◌, ◌-◌};
ghost use Rattle.words.specs.Words.{length};
ghost use Rattle.table.specs.Window.{row_offset, Fits};
ghost use Rattle.origins.specs.Origins.{heard_in};
ghost use Rattle.origins.specs.Steps.{Filled, Updated};

use table::Shape;

// Whether the position in the row `r` was heard.
pub fn is_heard(mem: &[u8], shape: Shape, r: usize) -> bool
    requires { Fits shape.width shape.size mem.now × (row_offset shape.width shape.size shape.width + shape.width ≤ length mem.now)
        × (r < shape.width) }
    ensures { result ≡ heard_in shape.width shape.size mem.now r }
{
    0 < mem[table::row_offset(shape, shape.width) + r]
}

// The bytes of the n positions from the `first` of the window on become `v`.
// Kept: `placing::move_on` and `marks::drop_first` go over positions too, but each writes another byte; a closure for the write is no plainer.
fn fill(mem: &mut [u8], shape: Shape, first: usize, n: usize, v: u8)
    requires { Fits shape.width shape.size mem.old × (row_offset shape.width shape.size shape.width + shape.width ≤ length mem.old)
        × (shape.oldest < shape.width) × (first + n ≤ shape.width) }
    ensures { Filled shape.width shape.size shape.oldest first n v mem.old mem.new }
{
    let at = table::row_offset(shape, shape.width);
    for i in 0..n {
        let r = table::row_of(shape, first + i);
        mem[at + r] = v;
    }
}

// A packet was accepted, with `own` symbols of its own from the position `first` of the window on: of the window's positions `stay` were in it before.
// Those that have come into it are not heard, and the packet's own are.
pub fn update(mem: &mut [u8], shape: Shape, stay: usize, first: usize, own: usize)
    requires { Fits shape.width shape.size mem.old × (row_offset shape.width shape.size shape.width + shape.width ≤ length mem.old)
        × (shape.oldest < shape.width) × (stay ≤ shape.width) × (first + own ≤ shape.width) }
    ensures { Updated shape.width shape.size shape.oldest stay first own mem.old mem.new }
{
    fill(mem, shape, stay, shape.width - stay, 0);
    fill(mem, shape, first, own, 1);
}
