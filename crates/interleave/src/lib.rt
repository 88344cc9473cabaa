// Send order against bursts (document 02, No. 8): a grid of symbols, taken row by row and sent column by column; and back.
#![tactic(auto)]

ghost use Rattle.std.specs.Prelude.{◌≡◌};
ghost use Rattle.words.specs.Words.{length};
ghost use Rattle.memory.specs.Part.{splice};
ghost use Rattle.wire.specs.Answers.{said};
ghost use Rattle.interleave.specs.Grid.{interleaved, answer_to};
ghost use Rattle.interleave.specs.Inner.{Fits};
ghost use Rattle.interleave.specs.Promises.{Interleaves, Deinterleaves};

use wire::{Refusal, between};

// The answer to so many bytes of input, where there is room for so many bytes of output.
fn answer_to(
    size: usize,
    rows: usize,
    columns: usize,
    given: usize,
    room: usize,
) -> Result<usize, Refusal>
    ensures { said result ≡ answer_to size rows columns given room }
{
    if !between(4, 1500, size) {
        return Err(Refusal::Values);
    }
    if !between(1, 255, rows) || !between(1, 255, columns) || given != rows * columns * size {
        return Err(Refusal::Grid);
    }
    if room < given {
        return Err(Refusal::Short);
    }
    Ok(given)
}

// The symbols of a grid in send order, one after the other.
fn send(src: &[u8], size: usize, rows: usize, columns: usize, out: &mut [u8])
    requires { Fits size rows columns (length src.now) (length out.old) }
    ensures { out.new ≡ splice 0 (interleaved size rows columns src.now) out.old }
{
    // Kept: a grid of one row or one column keeps its order. Without this, such grids of small symbols took up to 1.9 times as long as with one loop over places.
    if rows == 1 || columns == 1 {
        memory::copy(&mut out[..src.len()], src);
        return;
    }
    for column in 0..columns {
        for row in 0..rows {
            let to = (column * rows + row) * size;
            let from = (row * columns + column) * size;
            memory::copy(&mut out[to..to + size], &src[from..from + size]);
        }
    }
}

// A grid of symbols of `size` bytes, taken row by row, is written to `out` column by column.
pub fn interleave(
    src: &[u8],
    size: usize,
    rows: usize,
    columns: usize,
    out: &mut [u8],
) -> Result<usize, Refusal>
    ensures { Interleaves size rows columns src.now out.old result out.new }
{
    let n = answer_to(size, rows, columns, src.len(), out.len())?;
    send(src, size, rows, columns, out);
    Ok(n)
}

// A grid that came column by column is written to `out` row by row, as it was taken: the send order of `columns` rows by `rows` columns.
pub fn deinterleave(
    src: &[u8],
    size: usize,
    rows: usize,
    columns: usize,
    out: &mut [u8],
) -> Result<usize, Refusal>
    ensures { Deinterleaves size rows columns src.now out.old result out.new }
{
    let n = answer_to(size, rows, columns, src.len(), out.len())?;
    send(src, size, columns, rows, out);
    Ok(n)
}
