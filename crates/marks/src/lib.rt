// The marks of starts: read, set, moved on with the window, and the pass that follows the lengths of known ADUs.
#![tactic(auto)]

ghost use Rattle.std.specs.Prelude.{◌≡◌, ◌≤◌, ◌+◌, ◌<◌, ◌%◌};
ghost use Rattle.words.specs.Words.{length};
ghost use Rattle.table.specs.Window.{header_size, row_offset, Fits};
ghost use Rattle.marks.specs.Marks.{mark_at, marked};
ghost use Rattle.marks.specs.MarkSteps.{Written, Dropped, Noted, Stepped, Followed, Owned, Decided, Extended, Updated, OneKnown, Tallied, onto};
ghost use Rattle.marks.specs.Promises.{MarkSet, MarksMoved, Passed};

use table::Shape;

// Where the mark of the i-th position of the window, or of the one just past it, stands.
fn mark_at(shape: Shape, i: usize) -> usize
    requires { (shape.oldest < shape.width) × (i ≤ shape.width) × (shape.width ≤ 255) × (shape.size ≤ 1500) }
    ensures { (result ≡ mark_at shape.width shape.size shape.oldest i) × (result < row_offset shape.width shape.size shape.width) }
{
    if i < shape.width {
        let r = table::row_of(shape, i);
        table::row_offset(shape, r) + (shape.width + shape.size + 1)
    } else {
        10
    }
}

// Whether the i-th position is one of the window and known.
fn one_known(mem: &[u8], shape: Shape, i: usize) -> bool
    requires { Fits shape.width shape.size mem.now × (shape.oldest < shape.width) }
    ensures { OneKnown shape.width shape.size shape.oldest i result mem.now }
{
    i < shape.width && placing::is_known(mem, shape, table::row_of(shape, i))
}

// How many of the n positions from `first` on are known.
pub fn known_among(mem: &[u8], shape: Shape, first: usize, n: usize) -> usize
    requires { Fits shape.width shape.size mem.now × (shape.oldest < shape.width) × (first + n ≤ 100000) }
    ensures { Tallied shape.width shape.size shape.oldest first n result mem.now }
{
    let mut count: usize = 0;
    for i in 0..n {
        count += usize::from(one_known(mem, shape, first + i));
    }
    count
}

// Whether the i-th position of the window, or the one just past it, is marked.
pub fn is_marked(mem: &[u8], shape: Shape, i: usize) -> bool
    requires { Fits shape.width shape.size mem.now × (shape.oldest < shape.width) × (i ≤ shape.width) }
    ensures { result ≡ marked shape.width shape.size shape.oldest mem.now i }
{
    let at = mark_at(shape, i);
    0 < mem[at]
}

// The byte of the i-th position's mark becomes `v`.
fn write(mem: &mut [u8], shape: Shape, i: usize, v: u8)
    requires { Fits shape.width shape.size mem.old × (shape.oldest < shape.width) × (i ≤ shape.width) }
    ensures { Written shape.width shape.size shape.oldest i v mem.old mem.new }
{
    let at = mark_at(shape, i);
    mem[at] = v;
}

// The first n positions are no longer marked.
// Kept: `placing::move_on` and `origins::fill` go over positions too, but each writes another byte; a closure for the write is no plainer.
fn drop_first(mem: &mut [u8], shape: Shape, n: usize)
    requires { Fits shape.width shape.size mem.old × (shape.oldest < shape.width) × (n ≤ shape.width + 1) }
    ensures { Dropped shape.width shape.size shape.oldest n mem.old mem.new }
{
    for i in 0..n {
        write(mem, shape, i, 0);
    }
}

// The i-th position of the window, or the one just past it, is marked.
fn set(mem: &mut [u8], shape: Shape, i: usize)
    requires { Fits shape.width shape.size mem.old × (shape.oldest < shape.width) × (i ≤ shape.width) }
    ensures { MarkSet shape.width shape.size shape.oldest i mem.old mem.new }
{
    write(mem, shape, i, 1);
}

// The window moves on by `rise` positions: marks below its base are dropped, and the one just past it comes into a row.
fn move_on(mem: &mut [u8], shape: Shape, rise: usize)
    requires { Fits shape.width shape.size mem.old × (shape.oldest < shape.width) }
    ensures { MarksMoved shape.width shape.size shape.oldest rise mem.old mem.new }
{
    if rise == 0 {
        return;
    }
    let w = shape.width;
    if w < rise {
        drop_first(mem, shape, w + 1);
        return;
    }
    let past = mem[10];
    drop_first(mem, shape, rise);
    write(mem, shape, w, 0);
    write(mem, shape, 0, past);
}

// Whether an ADU ends past the window is noted.
fn note(mem: &mut [u8], v: u8)
    requires { header_size ≤ length mem.old }
    ensures { Noted v mem.old mem.new }
{
    mem[11] = v;
}

// The turn of the i-th position in the pass: if it is marked and known, it marks the position where the ADU that it begins ends. Gives that
// position if it was not marked before.
fn step(mem: &mut [u8], shape: Shape, i: usize) -> Option<usize>
    requires { Fits shape.width shape.size mem.old × (shape.oldest < shape.width) × (i < shape.width) }
    ensures { Stepped shape.width shape.size shape.oldest i (onto shape.width result) mem.old mem.new }
{
    let w = shape.width;
    if !is_marked(mem, shape, i) {
        return None;
    }
    let r = table::row_of(shape, i);
    if !placing::is_known(mem, shape, r) {
        return None;
    }
    let at = table::symbol_offset(shape, r);
    let n = wire::symbol_count(shape.size, memory::load_u16(mem, at + 1) as usize);
    if w < n {
        return None;
    }
    if w - i < n {
        note(mem, 1);
        return None;
    }
    if is_marked(mem, shape, i + n) {
        return None;
    }
    set(mem, shape, i + n);
    Some(i + n)
}

// The turns of all positions of the window, rising.
fn step_all(mem: &mut [u8], shape: Shape)
    requires { Fits shape.width shape.size mem.old × (shape.oldest < shape.width) }
    ensures { Passed shape.width shape.size shape.oldest mem.old mem.new }
{
    for i in 0..shape.width {
        step(mem, shape, i);
    }
}

// A marked known position marks the one where the ADU that it begins ends, rising through the window.
fn pass(mem: &mut [u8], shape: Shape)
    requires { Fits shape.width shape.size mem.old × (shape.oldest < shape.width) }
    ensures { Passed shape.width shape.size shape.oldest mem.old mem.new }
{
    note(mem, 0);
    step_all(mem, shape);
}

// The turns of the position `from`, and of the one that it marks, and so on.
fn walk(mem: &mut [u8], shape: Shape, from: usize)
    requires { Fits shape.width shape.size mem.old × (shape.oldest < shape.width) × (from ≤ shape.width) }
    ensures { Followed shape.width shape.size shape.oldest (λ k. k ≡ from) mem.old mem.new }
{
    let mut i = from;
    while i < shape.width {
        let Some(end) = step(mem, shape, i) else {
            return;
        };
        i = end;
    }
}

// Walks from each of the n positions from `first` on.
fn walk_all(mem: &mut [u8], shape: Shape, first: usize, n: usize)
    requires { Fits shape.width shape.size mem.old × (shape.oldest < shape.width) × (first + n ≤ shape.width + 1) }
    ensures { Followed shape.width shape.size shape.oldest (λ k. (first ≤ k) × (k < first + n)) mem.old mem.new }
{
    for i in 0..n {
        walk(mem, shape, first + i);
    }
}

// A packet with `named` symbols of its own from the position `first` on, if any, marks that and the one after its last.
fn set_own(mem: &mut [u8], shape: Shape, first: usize, named: usize)
    requires { Fits shape.width shape.size mem.old × (shape.oldest < shape.width) × (first + named ≤ shape.width) }
    ensures { Owned shape.width shape.size shape.oldest first named mem.old mem.new }
{
    if named == 0 {
        return;
    }
    set(mem, shape, first + named);
    set(mem, shape, first);
}

// Whether only the pass will do: positions other than the packet's own have become known, or an ADU that ended past the window may end in it.
fn must_pass(mem: &[u8], rise: usize, others: bool) -> bool
    requires { header_size ≤ length mem.now }
    ensures { Decided rise others mem.now result }
{
    others || rise != 0 && mem[11] != 0
}

// What the marks reach is marked, after a packet with `named` symbols of its own from the position `first` on.
fn reach(mem: &mut [u8], shape: Shape, rise: usize, first: usize, named: usize, others: bool)
    requires { Fits shape.width shape.size mem.old × (shape.oldest < shape.width) × (first + named ≤ shape.width) }
    ensures { Extended shape.width shape.size shape.oldest rise first named others mem.old mem.new }
{
    if must_pass(mem, rise, others) {
        pass(mem, shape);
        return;
    }
    if named == 0 {
        return;
    }
    walk_all(mem, shape, first, named + 1);
}

// A packet was accepted, with `named` symbols of its own from the position `first` on: the window has moved on by `rise` positions from the row
// `former` on, and the packet's first position and the one after its last are marked, and what they and the marks before reach. `others` tells
// whether positions other than the packet's own have become known.
pub fn update(
    mem: &mut [u8],
    shape: Shape,
    former: usize,
    rise: usize,
    first: usize,
    named: usize,
    others: bool,
)
    requires { Fits shape.width shape.size mem.old × (former < shape.width) × (shape.oldest ≡ (former + rise) % shape.width)
        × (first + named ≤ shape.width) }
    ensures { Updated shape.width shape.size former rise first named others mem.old mem.new }
{
    let before = Shape {
        width: shape.width,
        size: shape.size,
        oldest: former,
    };
    move_on(mem, before, rise);
    set_own(mem, shape, first, named);
    reach(mem, shape, rise, first, named, others);
}
