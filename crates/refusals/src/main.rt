// Document 01's table of refusals ("Why a call says no"), line by line: what each small example answers. None is known for 10. Then cases of joining,
// of the ADU call (flow, length and output, or the refusal), of flows that are not announced (document 02, No. 7), of grids (No. 8) and of blocks (No. 9).
// The examples are a table on standard input, and a line of it is a step: its first character says which, and the bytes after it are hexadecimal.
//
// =  prints the rest of the line           .  ends a printed line
// m  lends so many bytes of the memory     z  makes all its bytes zero
// w  lends so many of the working memory   o  lends so many of the output, all zero
// s  opens a sender: scheme, E, width      S  the same, and the answer is not printed
// r  opens a receiver, as s does           R  the same, and the answer is not printed
// a  adds an ADU with flow 1               k  makes repair with key 1: DT, count
// p  receives a source packet with flow 1  q  receives a repair packet
// y  shows the symbol with an ESI          h  hands out the ADU that begins at an ESI
// f  announces a flow, and no other, from the next opening on
// F  announces all flows from the next opening on, as at the beginning
// g  puts a grid into send order: E, rows, columns, and its bytes
// G  puts it back
// b  opens the encoder of a block: E, k and the total in two bytes each, the block number in four
// B  the same, and the answer is not printed
// c  opens the memory to recover a block, as b does
// C  the same, and the answer is not printed
// A  adds an ADU with flow 1 to a block    K  makes the repair packet of a block with an ESI
// P  receives a block's source packet      Q  receives a block's repair packet
// Y  shows the symbol of a block with an ESI
#![tactic(auto)]

ghost use Rattle.std.specs.Prelude.{◌<◌, ◌≤◌, IfSome, IfOk};

use report::{print, print_answer, print_count, print_symbol};
use std::io;
use std::io::Read;
use wire::RepairKey;

// How many bytes of the memory, of the working memory and of the output are lent.
#[derive(Clone, Copy)]
struct Sizes {
    mem: usize,
    work: usize,
    out: usize,
}

// The bytes of a step, up to 16 of them.
#[derive(Clone, Copy)]
struct Args {
    bytes: [u8; 16],
    len: usize,
    ghost room: { len ≤ 16 },
}

impl Args {
    // Those that a line has after its first character, in hexadecimal; blanks may stand between.
    fn read(line: &[u8]) -> Args {
        let mut bytes = [0u8; 16];
        let mut digits: usize = 0;
        for character in line {
            if let Some(d) = digit(*character) {
                if digits < 32 {
                    let at = digits / 2;
                    bytes[at] = bytes[at] % 16 * 16 + d;
                    digits += 1;
                }
            }
        }
        Args {
            bytes,
            len: digits / 2,
        }
    }

    // All of them.
    fn all(&self) -> &[u8] {
        &self.bytes[..self.len]
    }

    // One of them, as a number.
    fn number(&self, i: usize) -> usize
        requires { i < 16 }
    {
        self.bytes[i] as usize
    }

    // Two of them, as a number.
    fn pair(&self, i: usize) -> usize
        requires { i < 15 }
    {
        memory::load_u16(&self.bytes, i) as usize
    }

    // Four of them, as a number.
    fn word(&self, i: usize) -> u32
        requires { i < 13 }
    {
        memory::load_u32(&self.bytes, i)
    }
}

// The value of a hexadecimal digit.
fn digit(character: u8) -> Option<u8>
    ensures { IfSome result (λ d. d < 16) }
{
    match character {
        b'0'..=b'9' => Some(character - b'0'),
        b'A'..=b'F' => Some(character - b'A' + 10),
        _ => None,
    }
}

// The call of a sender or of a receiver that a step names, if it names one.
fn call_end(
    rt: &impl Print,
    step: u8,
    args: &Args,
    announced: &[u8; 32],
    mem: &mut [u8],
    work: &mut [u8],
    out: &mut [u8],
) -> io::Result<()> {
    let scheme = args.number(0);
    let size = args.number(1);
    let width = args.number(2);
    match step {
        b's' => print_answer(rt, sender::open(mem, scheme, size, width, announced)),
        b'S' => {
            let _ = sender::open(mem, scheme, size, width, announced);
            Ok(())
        }
        b'r' => print_answer(rt, receiver::open(mem, scheme, size, width, announced)),
        b'R' => {
            let _ = receiver::open(mem, scheme, size, width, announced);
            Ok(())
        }
        b'a' => print_answer(rt, sender::add_adu(mem, 1, args.all(), out)),
        b'k' => print_count(
            rt,
            sender::make_repair(mem, RepairKey(1), args.number(0), args.number(1), out),
        ),
        b'p' => report::source(rt, mem, work, args.all()),
        b'q' => report::repair(rt, mem, work, args.all()),
        b'y' => report::show(rt, mem, args.word(0)),
        b'h' => report::hand(rt, mem, args.word(0), out),
        _ => Ok(()),
    }
}

// The call for a grid that a step names, if it names one: E, rows and columns, and the grid.
fn call_grid(rt: &impl Print, step: u8, args: &Args, out: &mut [u8]) -> io::Result<()> {
    if args.len < 3 {
        return Ok(());
    }
    let grid = &args.bytes[3..args.len];
    let size = args.number(0);
    let rows = args.number(1);
    let columns = args.number(2);
    match step {
        b'g' => print_answer(rt, interleave::interleave(grid, size, rows, columns, out)),
        b'G' => print_answer(rt, interleave::deinterleave(grid, size, rows, columns, out)),
        _ => Ok(()),
    }
}

// The call of an end of a block that a step names, if it names one.
fn call_block(
    rt: &impl Print,
    step: u8,
    args: &Args,
    mem: &mut [u8],
    work: &mut [u8],
    out: &mut [u8],
) -> io::Result<()> {
    let size = args.pair(0);
    let k = args.pair(2);
    let total = args.pair(4);
    let number = args.word(6) as usize;
    let esi = args.word(0) as usize;
    match step {
        b'b' => print_answer(rt, block_encoder::open(mem, size, k, total, number)),
        b'B' => {
            let _ = block_encoder::open(mem, size, k, total, number);
            Ok(())
        }
        b'c' => print_answer(rt, block_receiver::open(mem, size, k, total, number)),
        b'C' => {
            let _ = block_receiver::open(mem, size, k, total, number);
            Ok(())
        }
        b'A' => print_answer(rt, block_encoder::add_adu(mem, 1, args.all(), out)),
        b'K' => print_answer(rt, block_encoder::make_repair(mem, esi, out)),
        b'P' => print_count(rt, block_receiver::receive_source(mem, work, 1, args.all())),
        b'Q' => print_count(rt, block_receiver::receive_repair(mem, work, args.all())),
        b'Y' => print_symbol(
            rt,
            block_receiver::symbol(mem, esi),
            block_receiver::symbol_part(mem, esi),
        ),
        _ => Ok(()),
    }
}

// The call that a step names, if it names one, on so much as is lent.
fn call(
    rt: &impl Print,
    step: u8,
    args: &Args,
    sizes: Sizes,
    announced: &[u8; 32],
    mem: &mut [u8],
    work: &mut [u8],
    out: &mut [u8],
) -> io::Result<()> {
    if mem.len() < sizes.mem || work.len() < sizes.work || out.len() < sizes.out {
        return Ok(());
    }
    let mem = &mut mem[..sizes.mem];
    let work = &mut work[..sizes.work];
    let out = &mut out[..sizes.out];
    call_end(rt, step, args, announced, mem, work, out)?;
    call_grid(rt, step, args, out)?;
    call_block(rt, step, args, mem, work, out)
}

// What is lent after a step.
fn lends(step: u8, args: &Args, sizes: Sizes, mem: &mut [u8], out: &mut [u8]) -> Sizes {
    let size = args.number(0);
    match step {
        b'm' => Sizes { mem: size, ..sizes },
        b'w' => Sizes {
            work: size,
            ..sizes
        },
        b'o' => {
            out.fill(0);
            Sizes { out: size, ..sizes }
        }
        b'z' => {
            mem.fill(0);
            sizes
        }
        _ => sizes,
    }
}

// The flows that are announced after a step.
fn announces(step: u8, flow: u8, announced: &mut [u8; 32]) {
    match step {
        b'f' => {
            announced.fill(0);
            flows::announce(announced, flow);
        }
        b'F' => flows::announce_all(announced),
        _ => {}
    }
}

// A line of the table. Gives what is lent after it.
fn take(
    rt: &impl Print,
    line: &[u8],
    sizes: Sizes,
    announced: &mut [u8; 32],
    mem: &mut [u8],
    work: &mut [u8],
    out: &mut [u8],
) -> io::Result<Sizes> {
    let Some((step, rest)) = line.split_first() else {
        return Ok(sizes);
    };
    let step = *step;
    if step == b'=' {
        print(rt, rest)?;
        return Ok(sizes);
    }
    if step == b'.' {
        println!(rt)?;
        return Ok(sizes);
    }
    let args = Args::read(rest);
    call(rt, step, &args, sizes, announced, mem, work, out)?;
    announces(step, args.bytes[0], announced);
    Ok(lends(step, &args, sizes, mem, out))
}

// Reads the table until its room is full or the input ends. Gives how many bytes were read.
fn read_table(rt: &impl Input, table: &mut [u8; 65536]) -> io::Result<usize>
    ensures { IfOk result (λ n. n ≤ 65536) }
{
    let mut input = rt.reader();
    let mut n: usize = 0;
    while n < table.len() {
        let got = input.read(&mut table[n..])?;
        if got == 0 {
            break;
        }
        n += got;
    }
    Ok(n)
}

fn main(rt: HostRuntime) -> io::Result<()> {
    let mut table = [0; 65536];
    let n = read_table(&rt, &mut table)?;
    let mut announced = flows::all();
    // the memory of a receiver of width 4, enough for the smaller widths and for a sender too; its working memory; and output
    let mut mem = [0u8; 148];
    let mut work = [0u8; 161];
    let mut out = [0u8; 12];
    let mut sizes = Sizes {
        mem: 148,
        work: 161,
        out: 12,
    };
    for line in table[..n].split(|byte| *byte == b'\n') {
        sizes = take(
            &rt,
            line,
            sizes,
            &mut announced,
            &mut mem,
            &mut work,
            &mut out,
        )?;
    }
    Ok(())
}
