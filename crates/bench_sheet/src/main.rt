// Prints the bench sheet of document 01, C1 to C12, as the code computes them: a line for each case, packets and symbols in hexadecimal.
// C10 begins after a packet at ESI 0 (document 02, No. 2). All flows are announced (No. 7).
#![tactic(auto)]

mod receiving;

use field::Gf256;
use report::{print, print_bytes, print_number, print_refusal};
use std::io;
use wire::{Refusal, RepairKey, Scheme};

fn print_value(rt: &impl Print, n: u8) -> io::Result<()> {
    print_number(rt, n as usize)
}

// The ADU of a source packet, and the ESI.
fn print_source(rt: &impl Print, answer: Result<usize, Refusal>, out: &[u8]) -> io::Result<()> {
    match answer {
        Ok(n) if 4 <= n && n <= out.len() => {
            let (adu, esi) = out[..n].split_at(n - 4);
            print_bytes(rt, adu)?;
            print_bytes(rt, esi)
        }
        Ok(_) => Ok(()),
        Err(refusal) => print_refusal(rt, refusal),
    }
}

// The fields of a repair packet: key, DT and NSS, FSS_ESI, and the repair symbols.
fn print_repair(
    rt: &impl Print,
    answer: Result<(usize, u32), Refusal>,
    out: &[u8],
) -> io::Result<()> {
    match answer {
        Ok((n, _)) if 8 <= n && n <= out.len() => {
            print_bytes(rt, &out[0..2])?;
            print_bytes(rt, &out[2..4])?;
            print_bytes(rt, &out[4..8])?;
            print_bytes(rt, &out[8..n])
        }
        Ok(_) => Ok(()),
        Err(refusal) => print_refusal(rt, refusal),
    }
}

// The bytes of the memory of a sender with E 4 and width 2, and of its packets.
const MEMORY: usize = 72;

const PACKET: usize = 12;

fn field_case(rt: &impl Print, name: &[u8], value: Gf256) -> io::Result<()> {
    print(rt, name)?;
    print_value(rt, value.0)?;
    print(rt, b"\n")
}

// The first n coefficients for the key 1, and the draws that they took.
fn coefficients_case(
    rt: &impl Print,
    name: &[u8],
    n: usize,
    scheme: Scheme,
    dt: u8,
) -> io::Result<()> {
    if 255 < n {
        return Ok(());
    }
    print(rt, name)?;
    let mut row = coefficients::room_for_lists();
    match coefficients::fill_lists(&mut row, n, scheme, RepairKey(1), dt, 1) {
        Ok(draws) => {
            for value in &row[..n] {
                print_value(rt, *value)?;
            }
            print(rt, b"; draws")?;
            print_number(rt, draws as usize)?;
        }
        Err(refusal) => print_refusal(rt, refusal)?,
    }
    print(rt, b"\n")
}

// E 4, F 1, ADUs 41 and 42: two source packets and a repair packet of scheme 9.
fn packets_case(rt: &impl Print) -> io::Result<()> {
    let mut mem = [0u8; MEMORY];
    let mut out = [0u8; PACKET];
    let _ = sender::open(&mut mem, 9, 4, 2, &flows::all());
    print(rt, b"C7")?;
    let first = sender::add_adu(&mut mem, 1, b"\x41", &mut out);
    print_source(rt, first, &out)?;
    print(rt, b";")?;
    let second = sender::add_adu(&mut mem, 1, b"\x42", &mut out);
    print_source(rt, second, &out)?;
    print(rt, b";")?;
    let repair = sender::make_repair(&mem, RepairKey(1), 15, 1, &mut out);
    print_repair(rt, repair, &out)?;
    print(rt, b"\n")
}

// E 4, width 2: an ADU of 5 bytes taken, one of 6 refused.
fn width_case(rt: &impl Print) -> io::Result<()> {
    let mut mem = [0u8; MEMORY];
    let mut out = [0u8; PACKET];
    let _ = sender::open(&mut mem, 9, 4, 2, &flows::all());
    print(rt, b"C9")?;
    let taken = sender::add_adu(&mut mem, 1, b"\0\0\0\0\0", &mut out);
    print_source(rt, taken, &out)?;
    print(rt, b";")?;
    let refused = sender::add_adu(&mut mem, 1, b"\0\0\0\0\0\0", &mut out);
    print_source(rt, refused, &out)?;
    print(rt, b"\n")
}

fn main(rt: HostRuntime) -> io::Result<()> {
    field_case(&rt, b"C1", Gf256(2).product(Gf256(128)))?;
    field_case(&rt, b"C2", Gf256(3).product(Gf256(7)))?;
    field_case(&rt, b"C3", Gf256(2).inverse())?;
    coefficients_case(&rt, b"C4", 5, Scheme::Gf256, 15)?;
    coefficients_case(&rt, b"C5", 6, Scheme::Gf2, 4)?;
    coefficients_case(&rt, b"C6", 5, Scheme::Gf256, 4)?;
    packets_case(&rt)?;
    receiving::solved_case(&rt)?;
    width_case(&rt)?;
    receiving::places_case(&rt)?;
    receiving::contradiction_case(&rt)?;
    receiving::departed_case(&rt)
}
