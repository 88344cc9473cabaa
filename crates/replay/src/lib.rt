// Working through a capture (document 02, No. 4): the receiver's calls that its lines name, and what is printed of them. The input comes in pieces of any
// size, and no more is kept of it than a line.
#![tactic(auto)]

ghost use Rattle.std.specs.Prelude.{◌≡◌, ◌≤◌, ◌+◌, ◌&&◌};
ghost use Rattle.words.specs.Words.{length, ltb, leb, not};
ghost use Rattle.printing.specs.Printed.{record_line};
ghost use Rattle.printing.specs.Inner.{Put};
ghost use Rattle.answering.specs.Inner.{told};
ghost use Rattle.records.specs.Promises.{is_over, Begun, Fed, Finished};
ghost use Rattle.memory.specs.Contained.{Contained};
ghost use Rattle.replay.specs.Inner.{Lent, Counted, FirstEnded, PacketEnded, LineEnded, LineFed, InputEnded};

use answering::Fault;
use records::{Pass, Progress, Stage};

// The most packet lines that are read.
const MOST: u64 = 1000000;

// Output is taken up to here: a record's line, three numbers of at most 20 digits and their names, fits after it.
const NEARLY_FULL: usize = 65458;

// What was made of a line's end: how far the capture has come, and where what is written ends.
#[derive(Clone, Copy)]
struct Ended {
    progress: Progress,
    at: usize,
}

// The progress after the answer to a packet line. The sums of a capture are far from wrapping; those of any other progress may.
fn count(p: Progress, answer: Result<usize, Fault>) -> Progress
    ensures { Counted p (told answer) result }
{
    let read = Progress {
        stage: Stage::Working,
        have: 0,
        lines: p.lines.wrapping_add(1),
        ..p
    };
    match answer {
        Ok(known) => Progress {
            accepted: p.accepted.wrapping_add(1),
            known: p.known.wrapping_add(known as u64),
            ..read
        },
        Err(_) => Progress {
            refused: p.refused.wrapping_add(1),
            ..read
        },
    }
}

// Puts the line of a packet line's answer from `at` on, and gives where it ends.
fn put_answer(out: &mut [u8], at: usize, n: u64, answer: Result<usize, Fault>) -> usize
    requires { at + 78 ≤ length out.old }
    ensures { Put out.old out.new at result (record_line n (told answer).answer (told answer).known) }
{
    match answer {
        Ok(known) => printing::put_record(out, at, n, 0, known as u64),
        Err(fault) => printing::put_record(out, at, n, u64::from(u8::from(fault)), 0),
    }
}

// The first line has ended.
fn end_first(p: Progress, line: &[u8], mem: &mut [u8]) -> Progress
    requires { (8192 ≤ length line.now) × (length mem.old ≡ 65536) }
    ensures { FirstEnded p line.now mem.old mem.new result }
{
    if answering::open_by(line, p.have, mem) {
        return Progress {
            stage: Stage::Working,
            have: 0,
            ..p
        };
    }
    Progress {
        stage: Stage::Closed,
        have: 0,
        ..p
    }
}

// Kept: the memories are lent one by one, as `feed` and `finish` are lent them, whose parameters may not change: a struct of references to them would be
// put together there and taken apart at each call of `answering`.
// A packet line has ended.
fn end_packet(
    p: Progress,
    line: &[u8],
    mem: &mut [u8],
    work: &mut [u8],
    packet: &mut [u8],
    out: &mut [u8],
    at: usize,
) -> Ended
    requires { Lent line.now mem.old work.old packet.old × (at + 78 ≤ length out.old) }
    ensures { PacketEnded p line.now mem.old mem.new out.old out.new at result }
{
    let n = p.lines;
    if MOST <= n {
        return Ended {
            progress: Progress { have: 0, ..p },
            at,
        };
    }
    let answer = answering::answer_line(line, p.have, mem, work, packet);
    let next = put_answer(out, at, n + 1, answer);
    Ended {
        progress: count(p, answer),
        at: next,
    }
}

// A line has ended.
fn end_line(
    p: Progress,
    line: &[u8],
    mem: &mut [u8],
    work: &mut [u8],
    packet: &mut [u8],
    out: &mut [u8],
    at: usize,
) -> Ended
    requires { Lent line.now mem.old work.old packet.old × (at + 78 ≤ length out.old) }
    ensures { LineEnded p line.now mem.old mem.new out.old out.new at result }
{
    match p.stage {
        Stage::Opening => Ended {
            progress: end_first(p, line, mem),
            at,
        },
        Stage::Working => end_packet(p, line, mem, work, packet, out, at),
        Stage::Closed => Ended {
            progress: Progress { have: 0, ..p },
            at,
        },
    }
}

// Takes the input up to the end of its first line, or all of it.
fn feed_line(
    p: Progress,
    line: &mut [u8],
    mem: &mut [u8],
    work: &mut [u8],
    packet: &mut [u8],
    input: &[u8],
    out: &mut [u8],
    at: usize,
) -> Pass
    requires { Lent line.old mem.old work.old packet.old × (at + 78 ≤ length out.old) }
    ensures { LineFed p line.old line.new mem.old mem.new
        input.now out.old out.new at result }
{
    let n = lines::line_end(input);
    let have = answering::keep(line, p.have, &input[..n]);
    let kept = Progress { have, ..p };
    if n == input.len() {
        return Pass {
            progress: kept,
            taken: n,
            written: at,
        };
    }
    let ended = end_line(kept, line, mem, work, packet, out, at);
    Pass {
        progress: ended.progress,
        taken: n + 1,
        written: ended.at,
    }
}

// Whether nothing more of the input is wanted: the first line was bad, or the most packet lines have been read.
pub fn is_over(progress: Progress) -> bool
    ensures { result ≡ is_over progress }
{
    match progress.stage {
        Stage::Opening => false,
        Stage::Working => MOST <= progress.lines,
        Stage::Closed => true,
    }
}

// Whether a line is to be taken: there is input, there is room for a record, and more is wanted.
fn goes_on(p: Progress, taken: usize, all: usize, written: usize) -> bool
    ensures { result ≡ ltb taken all && (leb written 65458 && not (is_over p)) }
{
    taken < all && written <= NEARLY_FULL && !is_over(p)
}

// The beginning of a capture.
pub fn begin() -> Progress
    ensures { Begun result }
{
    Progress {
        stage: Stage::Opening,
        have: 0,
        lines: 0,
        accepted: 0,
        refused: 0,
        known: 0,
    }
}

// Works through a piece of the input line by line, as far as there is room for what is printed.
fn feed_lines(
    progress: Progress,
    line: &mut [u8],
    mem: &mut [u8],
    work: &mut [u8],
    packet: &mut [u8],
    input: &[u8],
    out: &mut [u8],
) -> Pass
    requires { Lent line.old mem.old work.old packet.old × (length out.old ≡ 65536) }
    ensures { Fed progress line.old line.new mem.old mem.new input.now out.new result
        × Contained result.written out.old out.new }
{
    let mut p = progress;
    let mut taken = 0;
    let mut written = 0;
    while goes_on(p, taken, input.len(), written) {
        let pass = feed_line(p, line, mem, work, packet, &input[taken..], out, written);
        p = pass.progress;
        taken += pass.taken;
        written = pass.written;
    }
    Pass {
        progress: p,
        taken,
        written,
    }
}

// Works through a piece of the input, as far as there is room for what is printed. What is written stands at the front of the output, and
// output past it stays.
pub fn feed(
    progress: Progress,
    line: &mut [u8; 8192],
    mem: &mut [u8; 65536],
    work: &mut [u8; 65536],
    packet: &mut [u8; 4096],
    input: &[u8],
    out: &mut [u8; 65536],
) -> Pass
    ensures { Fed progress line.old line.new mem.old mem.new input.now out.new result
        × Contained result.written out.old out.new }
{
    feed_lines(progress, line, mem, work, packet, input, out)
}

// A line that has not ended ends with the input.
fn end_unended(
    p: Progress,
    line: &[u8],
    mem: &mut [u8],
    work: &mut [u8],
    packet: &mut [u8],
    out: &mut [u8],
) -> Ended
    requires { Lent line.now mem.old work.old packet.old × (78 ≤ length out.old) }
    ensures { InputEnded p line.now mem.old out.old out.new result }
{
    if p.have == 0 {
        return Ended { progress: p, at: 0 };
    }
    end_line(p, line, mem, work, packet, out, 0)
}

// The input has ended: its last line, if it has no 0A, and the line with the sums. Gives how many bytes are written at the front of the output;
// output past these stays.
pub fn finish(
    progress: Progress,
    line: &[u8; 8192],
    mem: &mut [u8; 65536],
    work: &mut [u8; 65536],
    packet: &mut [u8; 4096],
    out: &mut [u8; 256],
) -> usize
    ensures { Finished progress line.now mem.old out.new result
        × Contained result out.old out.new }
{
    let ended = end_unended(progress, line, mem, work, packet, out);
    let p = ended.progress;
    printing::put_last(out, ended.at, p.lines, p.accepted, p.refused, p.known)
}
