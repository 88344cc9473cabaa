// Works through a capture on standard input and prints what the receiver answered (document 02, No. 4). All but reading and writing is done by the
// library `replay`.
#![tactic(auto)]

ghost use Rattle.std.specs.Prelude.{◌≡◌, ◌≤◌};
ghost use Rattle.words.specs.Words.{length};
ghost use Rattle.capture.specs.Going.{Went};

use records::Progress;
use std::io;
use std::io::Read;

// How far the capture has come, and whether more of the input is to be read.
#[derive(Clone, Copy)]
struct Heard {
    progress: Progress,
    more: bool,
}

// Works through what was read. It is handed to the library until all of it is taken or no more is wanted.
fn work_through(
    rt: &impl Print,
    progress: Progress,
    line: &mut [u8; 8192],
    mem: &mut [u8; 65536],
    work: &mut [u8; 65536],
    packet: &mut [u8; 4096],
    input: &[u8],
    out: &mut [u8; 65536],
) -> io::Result<Heard>
    ensures { Went progress line.old line.new mem.old mem.new input.now result }
{
    let mut p = progress;
    let mut at = 0;
    while at < input.len() && !replay::is_over(p) {
        let pass = replay::feed(p, line, mem, work, packet, &input[at..], out);
        p = pass.progress;
        rt.write_all(&out[..pass.written])?;
        at += pass.taken;
    }
    let more = !replay::is_over(p);
    Ok(Heard { progress: p, more })
}

// Reads bytes, and gives how many; none where the input ends, or cannot be read, which is said.
fn read_some(rt: &impl Eprint, from: &mut impl Read, input: &mut [u8; 65536]) -> usize
    ensures { result ≤ 65536 }
{
    match from.read(input) {
        Ok(n) => n,
        Err(_) => {
            let _ = eprintln!(rt; "capture: standard input cannot be read");
            0
        }
    }
}

// Works through the input a piece at a time, as long as more is wanted and until it ends or cannot be read, and prints what its end asks for. It fails
// where something cannot be printed.
fn work_on(rt: &(impl Print + Eprint), from: &mut impl Read) -> io::Result<()> {
    let mut line = [0; 8192];
    let mut mem = [0; 65536];
    let mut work = [0; 65536];
    let mut packet = [0; 4096];
    let mut input = [0; 65536];
    let mut out = [0; 65536];
    let mut progress = replay::begin();
    // more turns than there will ever be: a loop has to end by its own account
    for _ in 0..u64::MAX {
        let n = read_some(rt, from, &mut input);
        let heard = work_through(
            rt,
            progress,
            &mut line,
            &mut mem,
            &mut work,
            &mut packet,
            &input[..n],
            &mut out,
        )?;
        progress = heard.progress;
        if n == 0 || !heard.more {
            break;
        }
    }
    let mut last = [0; 256];
    let n = replay::finish(progress, &line, &mut mem, &mut work, &mut packet, &mut last);
    rt.write_all(&last[..n])
}

fn main(rt: HostRuntime) {
    let mut from = rt.reader();
    if work_on(&rt, &mut from).is_err() {
        let _ = eprintln!(rt; "capture: standard output cannot be written");
    }
}
