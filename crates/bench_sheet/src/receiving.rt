// The receiver's cases: what each packet call answers, and then what the symbol call shows. E is 4 and F is 1 throughout.
use report::{print, repair, show, source};
use std::io;

// The memory of a receiver of width 4, enough for the smaller widths too, and its working memory.
const MEMORY: usize = 148;

const WORKING: usize = 161;

fn open(mem: &mut [u8], width: usize) {
    let _ = receiver::open(mem, 9, 4, width, &flows::all());
}

// Width 2: the first and the repair packet of C7, then symbol 1.
pub fn solved_case(rt: &impl Print) -> io::Result<()> {
    let mut mem = [0u8; MEMORY];
    let mut work = [0u8; WORKING];
    open(&mut mem, 2);
    print(rt, b"C8")?;
    source(rt, &mut mem, &mut work, b"\x41\0\0\0\0")?;
    repair(rt, &mut mem, &mut work, b"\0\0\xF0\x02\0\0\0\0\0\0\0\x03")?;
    print(rt, b";")?;
    show(rt, &mem, 1)?;
    print(rt, b"\n")
}

// An empty ADU at an ESI, after one at ESI 0: base 0.
fn place(rt: &impl Print, mem: &mut [u8], work: &mut [u8], packet: &[u8]) -> io::Result<()> {
    open(mem, 1);
    source(rt, mem, work, b"\0\0\0\0")?;
    source(rt, mem, work, packet)
}

// ESI 65535, 65536, 2147483647, 2147483648.
pub fn places_case(rt: &impl Print) -> io::Result<()> {
    let mut mem = [0u8; MEMORY];
    let mut work = [0u8; WORKING];
    print(rt, b"C10")?;
    place(rt, &mut mem, &mut work, b"\0\0\xFF\xFF")?;
    print(rt, b";")?;
    place(rt, &mut mem, &mut work, b"\0\x01\0\0")?;
    print(rt, b";")?;
    place(rt, &mut mem, &mut work, b"\x7F\xFF\xFF\xFF")?;
    print(rt, b";")?;
    place(rt, &mut mem, &mut work, b"\x80\0\0\0")?;
    print(rt, b"\n")
}

// C7's repair, then an ADU of five zero bytes that contradicts it; neither symbol is known.
pub fn contradiction_case(rt: &impl Print) -> io::Result<()> {
    let mut mem = [0u8; MEMORY];
    let mut work = [0u8; WORKING];
    open(&mut mem, 2);
    print(rt, b"C11")?;
    repair(rt, &mut mem, &mut work, b"\0\0\xF0\x02\0\0\0\0\0\0\0\x03")?;
    source(rt, &mut mem, &mut work, b"\0\0\0\0\0\0\0\0\0")?;
    print(rt, b";")?;
    show(rt, &mem, 0)?;
    show(rt, &mem, 1)?;
    print(rt, b"\n")
}

// Width 4: repairs over 0..1 and 0..3, sources 4, 5 and 3, then symbol 2.
pub fn departed_case(rt: &impl Print) -> io::Result<()> {
    let mut mem = [0u8; MEMORY];
    let mut work = [0u8; WORKING];
    open(&mut mem, 4);
    print(rt, b"C12")?;
    repair(rt, &mut mem, &mut work, b"\0\0\xF0\x02\0\0\0\0\0\0\0\x03")?;
    repair(rt, &mut mem, &mut work, b"\0\0\xF0\x04\0\0\0\0\0\0\0\x04")?;
    source(rt, &mut mem, &mut work, b"\x45\0\0\0\x04")?;
    source(rt, &mut mem, &mut work, b"\x46\0\0\0\x05")?;
    source(rt, &mut mem, &mut work, b"\x44\0\0\0\x03")?;
    print(rt, b";")?;
    show(rt, &mem, 2)?;
    print(rt, b"\n")
}
