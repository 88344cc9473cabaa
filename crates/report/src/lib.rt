// What the printing programs share: numbers, bytes in hexadecimal and refusals on standard output, and calls whose answers are printed.
#![tactic(auto)]

use std::io;
use wire::{Esi, Refusal};

pub fn print(rt: &impl Print, text: &[u8]) -> io::Result<()> {
    rt.write_all(text)
}

// A blank and a number.
pub fn print_number(rt: &impl Print, n: usize) -> io::Result<()> {
    print!(rt; " {n}")
}

// The hexadecimal digits.
static DIGITS: [u8; 16] = *b"0123456789ABCDEF";

// A blank, and the bytes in hexadecimal.
// Kept: digits from a table in place of `{byte:02X}`, which makes a buffer of a kibibyte for each byte: the longest tables took 1.4 times as long.
pub fn print_bytes(rt: &impl Print, bytes: &[u8]) -> io::Result<()> {
    print(rt, b" ")?;
    for byte in bytes {
        let (high, low) = (*byte / 16, *byte % 16);
        print(rt, &[DIGITS[high as usize], DIGITS[low as usize]])?;
    }
    Ok(())
}

pub fn print_refusal(rt: &impl Print, refusal: Refusal) -> io::Result<()> {
    let number = u8::from(refusal);
    print!(rt; " refusal {number}")
}

// What a call answered that gives a number.
pub fn print_answer(rt: &impl Print, answer: Result<usize, Refusal>) -> io::Result<()> {
    match answer {
        Ok(n) => print_number(rt, n),
        Err(refusal) => print_refusal(rt, refusal),
    }
}

// What a call answered that gives a number and draws, without the draws.
pub fn print_count(rt: &impl Print, answer: Result<(usize, u32), Refusal>) -> io::Result<()> {
    print_answer(rt, answer.map(|(n, _)| n))
}

// A symbol, without its origin, or the refusal of the symbol call.
pub fn print_symbol(
    rt: &impl Print,
    answer: Result<bool, Refusal>,
    symbol: &[u8],
) -> io::Result<()> {
    match answer {
        Ok(_) => print_bytes(rt, symbol),
        Err(refusal) => print_refusal(rt, refusal),
    }
}

// A source packet with flow 1.
pub fn source(rt: &impl Print, mem: &mut [u8], work: &mut [u8], packet: &[u8]) -> io::Result<()> {
    print_count(rt, receiver::receive_source(mem, work, 1, packet))
}

// A repair packet.
pub fn repair(rt: &impl Print, mem: &mut [u8], work: &mut [u8], packet: &[u8]) -> io::Result<()> {
    print_count(rt, receiver::receive_repair(mem, work, packet))
}

// The symbol with an ESI.
pub fn show(rt: &impl Print, mem: &[u8], esi: u32) -> io::Result<()> {
    let esi = Esi(esi);
    print_symbol(
        rt,
        receiver::symbol(mem, esi),
        receiver::symbol_part(mem, esi),
    )
}

// The ADU that begins at an ESI: its flow, its length and the whole output after it; or the refusal.
pub fn hand(rt: &impl Print, mem: &[u8], esi: u32, out: &mut [u8]) -> io::Result<()> {
    match receiver::adu(mem, Esi(esi), out) {
        Ok((flow, len)) => {
            print!(rt; " {flow} {len}")?;
            print_bytes(rt, out)
        }
        Err(refusal) => print_refusal(rt, refusal),
    }
}
