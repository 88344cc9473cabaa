// The lines of a capture (document 02, No. 4): where a line ends, and what a first line and a packet line say.
#![tactic(auto)]

ghost use Rattle.std.specs.Prelude.{◌≡◌, ◌≤◌, ◌+◌, ◌<◌, ◌*◌, ◌==◌, position};
ghost use Rattle.words.specs.Words.{length, false, ltb};
ghost use Rattle.lines.specs.Reading.{number_from, number_in, field_in, value_of, bytes_in, packet_in, values_in, call_in};
ghost use Rattle.lines.specs.Inner.{NoEnd, Ends, NumberRead, all_digits, BytesRead, values_of, CallRead};

// What a first line says: its scheme's number, E and the width.
#[derive(Clone, Copy)]
pub struct First {
    pub scheme: usize,
    pub size: usize,
    pub width: usize,
}

// What a packet line says: a source packet's flow and the number of its bytes, or a repair packet's number of bytes.
#[derive(Clone, Copy)]
pub enum Spoken {
    Source(u8, usize),
    Repair(usize),
}

// Whether a line ends within these bytes. Nothing ends the loop early, so that a machine can look at many bytes at once.
fn ends_within(piece: &[u8]) -> bool
    ensures { result ≡ false → NoEnd piece.now (length piece.now) }
{
    let mut found = false;
    for b in piece {
        found = found | (*b == b'\n');
    }
    found
}

// Kept: 32 bytes at a time and not `position` on the whole input, which looks at one byte after the other and cannot be vectorised.
// How many bytes at the input's front are passed over, 32 at a time, since no line ends there.
fn passed_over(input: &[u8]) -> usize
    ensures { (result ≤ length input.now) × NoEnd input.now result }
{
    let mut i = 0;
    while 32 <= input.len() - i {
        if ends_within(&input[i..i + 32]) {
            return i;
        }
        i += 32;
    }
    i
}

// Where the first 0A is.
fn first_end(bytes: &[u8]) -> Option<usize>
    ensures { result ≡ position (λ b. b == 10) bytes.now }
{
    bytes.iter().position(|b| *b == b'\n')
}

// Where the first line of the input ends: at its first 0A, or else at the input's end.
pub fn line_end(input: &[u8]) -> usize
    ensures { Ends input.now result }
{
    let passed = passed_over(input);
    let rest = &input[passed..];
    passed + first_end(rest).unwrap_or(rest.len())
}

// Reads the digits at the front of a line, of a number that has begun with `first`.
fn read_digits(line: &[u8], most: usize, first: usize) -> Option<(usize, &[u8])>
    requires { (first ≤ most) × (most ≤ 1500) }
    ensures { NumberRead line.now most (number_from most first line.now) result }
{
    let mut value = first;
    for (i, b) in line.iter().enumerate() {
        if !b.is_ascii_digit() {
            return Some((value, &line[i..]));
        }
        value = value * 10 + (*b - b'0') as usize;
        if most < value {
            return None;
        }
    }
    Some((value, &line[line.len()..]))
}

// Reads a number, at most `most`, at the front of a line.
fn read_number(line: &[u8], most: usize) -> Option<(usize, &[u8])>
    requires { (9 ≤ most) × (most ≤ 1500) }
    ensures { NumberRead line.now most (number_in most line.now) result }
{
    match line {
        [b'0', rest @ ..] => Some((0, rest)),
        [first @ b'0'..=b'9', rest @ ..] => read_digits(rest, most, (*first - b'0') as usize),
        _ => None,
    }
}

// Reads a name and a number, at most `most`, at the front of a line.
fn read_field<'a>(line: &'a [u8], name: &[u8], most: usize) -> Option<(usize, &'a [u8])>
    requires { (9 ≤ most) × (most ≤ 1500) }
    ensures { NumberRead line.now most (field_in name.now most line.now) result }
{
    read_number(line.strip_prefix(name)?, most)
}

// Whether a byte is a hexadecimal digit.
fn is_hexadecimal(b: u8) -> bool
    ensures { result ≡ ltb (value_of b) 16 }
{
    matches!(b, b'0'..=b'9' | b'A'..=b'F')
}

// Whether all bytes are hexadecimal digits. Nothing ends the loop early, so that a machine can look at many bytes at once.
fn all_hexadecimal(digits: &[u8]) -> bool
    ensures { result ≡ all_digits digits.now }
{
    let mut all = true;
    for b in digits {
        all = all & is_hexadecimal(*b);
    }
    all
}

// The byte that two hexadecimal digits write. Both are worked on at once, as the bytes of one number, so that a machine can do many pairs at once; where
// `^` comes first, LLVM loads both by one instruction. 28784 is 112 in both bytes, which makes 64 + v of a decimal digit of value v and 39 + v of a letter;
// 10023 is 39 in both, and 25 more is taken off a decimal digit.
fn byte_of(high: u8, low: u8) -> u8
    requires { (value_of high < 16) × (value_of low < 16) }
    ensures { result ≡ value_of high * 16 + value_of low }
{
    let pair = (low as u16 * 256 + high as u16) ^ 28784;
    let values = pair - 10023 - (pair / 64 & 257) * 25;
    (values % 256 * 16 + values / 256) as u8
}

// Kept: the loop goes by index, since of elements written through `iter_mut` a proof knows nothing once the loop is over.
// Reads the bytes that digits write.
fn read_bytes(digits: &[u8], packet: &mut [u8]) -> Option<usize>
    requires { length digits.now ≤ 2 * length packet.old }
    ensures { BytesRead packet.new (bytes_in digits.now) result }
{
    if digits.len() % 2 == 1 || !all_hexadecimal(digits) {
        return None;
    }
    let count = digits.len() / 2;
    for k in 0..count {
        packet[k] = byte_of(digits[2 * k], digits[2 * k + 1]);
    }
    Some(count)
}

// Reads a name, and the bytes that the digits after it write.
fn read_packet(line: &[u8], name: &[u8], packet: &mut [u8]) -> Option<usize>
    requires { (length line.now ≤ 8192) × (4096 ≤ length packet.old) }
    ensures { BytesRead packet.new (packet_in name.now line.now) result }
{
    read_bytes(line.strip_prefix(name)?, packet)
}

// Reads a first line.
pub fn read_first(line: &[u8]) -> Option<First>
    ensures { values_of result ≡ values_in line.now }
{
    let (scheme, rest) = read_field(line, b"scheme=", 1500)?;
    let (size, rest) = read_field(rest, b" e=", 1500)?;
    let (width, rest) = read_field(rest, b" width=", 1500)?;
    if !rest.is_empty() {
        return None;
    }
    Some(First {
        scheme,
        size,
        width,
    })
}

// Reads a packet line; its packet's bytes go to the front of `packet`.
pub fn read_line(line: &[u8], packet: &mut [u8]) -> Option<Spoken>
    requires { 4096 ≤ length packet.old }
    ensures { CallRead packet.new (call_in line.now) result }
{
    if 8192 < line.len() {
        return None;
    }
    if let Some(n) = read_packet(line, b"kind=repair packet=", packet) {
        return Some(Spoken::Repair(n));
    }
    let (flow, rest) = read_field(line, b"kind=source flow=", 255)?;
    let n = read_packet(rest, b" packet=", packet)?;
    Some(Spoken::Source(flow as u8, n))
}
