// The window's equations in lent memory, in reduced row echelon form with the oldest position first.
// Row and column of a position are its remainder by the width, so nothing moves when the base rises.
#![tactic(auto)]

ghost use Rattle.std.specs.Prelude.{◌≡◌, ◌≤◌, ◌<◌, ◌↔◌};
ghost use Rattle.words.specs.Words.{length};
ghost use Rattle.table.specs.Window.{stride};
ghost use Rattle.table.specs.RowSteps.{RowOf, RowAt, SymbolAt, ZeroFrom};

// How many bytes the header has.
const HEADER_SIZE: usize = 96;

// A window: how many positions it has, how many bytes a symbol has, and the row of the oldest position.
#[derive(Clone, Copy)]
pub struct Shape {
    pub width: usize,
    pub size: usize,
    pub oldest: usize,
}

// The row of the position `d` after that of the row `row`.
pub fn row_after(shape: Shape, row: usize, d: usize) -> usize
    requires { (row < shape.width) × (d < shape.width) × (shape.width ≤ 255) }
    ensures { RowOf shape.width row d result }
{
    let r = row + d;
    if r < shape.width { r } else { r - shape.width }
}

// The row of the i-th position of the window.
pub fn row_of(shape: Shape, i: usize) -> usize
    requires { (shape.oldest < shape.width) × (i < shape.width) × (shape.width ≤ 255) }
    ensures { RowOf shape.width shape.oldest i result }
{
    row_after(shape, shape.oldest, i)
}

// How many bytes a row has: its coefficients, its symbol and its flags.
pub fn stride(shape: Shape) -> usize
    requires { (shape.width ≤ 255) × (shape.size ≤ 1500) }
    ensures { result ≡ stride shape.width shape.size }
{
    shape.width + shape.size + 4
}

// Where the row `r` begins.
pub fn row_offset(shape: Shape, r: usize) -> usize
    requires { (r ≤ shape.width) × (shape.width ≤ 255) × (shape.size ≤ 1500) }
    ensures { RowAt shape.width shape.size r result }
{
    HEADER_SIZE + r * stride(shape)
}

// Where the symbol of the row `r` begins: after the coefficients.
pub fn symbol_offset(shape: Shape, r: usize) -> usize
    requires { (r ≤ shape.width) × (shape.width ≤ 255) × (shape.size ≤ 1500) }
    ensures { SymbolAt shape.width shape.size r result }
{
    row_offset(shape, r) + shape.width
}

// The bytes from `from` on and before `to`, or-ed: zero just where all are.
pub fn or_all(bytes: &[u8], from: usize, to: usize) -> u8
    requires { (from ≤ to) × (to ≤ length bytes.now) }
    ensures { (result ≡ 0) ↔ ZeroFrom from to bytes.now }
{
    let mut x: u8 = 0;
    for byte in &bytes[from..to] {
        x |= *byte;
    }
    x
}
