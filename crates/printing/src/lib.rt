// Text in a buffer: texts, decimal numbers, and the lines that are printed of a capture (document 02, No. 4).
#![tactic(auto)]

ghost use Rattle.std.specs.Prelude.{◌≤◌, ◌+◌, ◌++◌};
ghost use Rattle.words.specs.Words.{length};
ghost use Rattle.text.specs.Text.{decimal};
ghost use Rattle.printing.specs.Printed.{record_line, last_line};
ghost use Rattle.printing.specs.Inner.{Put};

// Puts a text from `at` on, and gives where it ends.
fn put_text(out: &mut [u8], at: usize, text: &[u8]) -> usize
    requires { at + length text.now ≤ length out.old }
    ensures { Put out.old out.new at result text.now }
{
    let next = at + text.len();
    out[at..next].copy_from_slice(text);
    next
}

// Puts a number in decimal from `at` on, and gives where it ends.
fn put_decimal(out: &mut [u8], at: usize, n: u64) -> usize
    requires { at + length (decimal n) ≤ length out.old }
    ensures { Put out.old out.new at result (decimal n) }
{
    if n < 10 {
        out[at] = b'0' + n as u8;
        return at + 1;
    }
    let next = put_decimal(out, at, n / 10);
    out[next] = b'0' + (n % 10) as u8;
    next + 1
}

// Puts a name and a number from `at` on, and gives where they end.
fn put_field(out: &mut [u8], at: usize, name: &[u8], n: u64) -> usize
    requires { at + (length name.now + 20) ≤ length out.old }
    ensures { Put out.old out.new at result (name.now ++ decimal n) }
{
    let next = put_text(out, at, name);
    put_decimal(out, next, n)
}

// Kept: a put for each field names it once; a loop over names and numbers needs the line as a fold, and is no shorter.
// Puts the line of a packet line from `at` on, and gives where it ends.
pub fn put_record(out: &mut [u8], at: usize, n: u64, answer: u64, known: u64) -> usize
    requires { at + 78 ≤ length out.old }
    ensures { Put out.old out.new at result (record_line n answer known) }
{
    let first = put_field(out, at, b"n=", n);
    let second = put_field(out, first, b" answer=", answer);
    let third = put_field(out, second, b" known=", known);
    put_text(out, third, b"\n")
}

// Puts the last line from `at` on, and gives where it ends.
pub fn put_last(
    out: &mut [u8],
    at: usize,
    lines: u64,
    accepted: u64,
    refused: u64,
    known: u64,
) -> usize
    requires { at + 113 ≤ length out.old }
    ensures { Put out.old out.new at result (last_line lines accepted refused known) }
{
    let first = put_field(out, at, b"lines=", lines);
    let second = put_field(out, first, b" accepted=", accepted);
    let third = put_field(out, second, b" refused=", refused);
    let fourth = put_field(out, third, b" known=", known);
    put_text(out, fourth, b"\n")
}
