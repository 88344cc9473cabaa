// What a line of a capture makes of the receiver: the bytes kept of it, the opening that a first line names, the answer to a packet line.
#![tactic(auto)]

ghost use Rattle.std.specs.Prelude.{◌≡◌, ◌≤◌};
ghost use Rattle.words.specs.Words.{length};
ghost use Rattle.wire.specs.Answers.{said};
ghost use Rattle.receiver.specs.Promises.{answer_of};
ghost use Rattle.records.specs.Replay.{record_of};
ghost use Rattle.answering.specs.Inner.{fault_number, told, KeptMore, OpenedBy, Answered};

use holding::front;
use lines::{First, Spoken};
use wire::Refusal;

// The most characters that a line has.
const LONGEST: usize = 8192;

// Kept: a count in place of an Option, since `Kept` of `records`, on which `worked_through` stands, counts the bytes of a line up to one more than it may have.
// What is counted of a line that is longer.
const TOO_LONG: usize = 8193;

// The most bytes that a receiver's memory or the working memory may have.
const ROOM: usize = 65536;

// Why a packet line was not accepted: the receiver refused its packet, or it is not of the form.
#[derive(Clone, Copy)]
pub enum Fault {
    Refused(Refusal),
    Malformed,
}

impl From<Fault> for u8 {
    ghost from_gives = { λ fault number. number ≡ fault_number fault };

    fn from(fault: Fault) -> u8 {
        match fault {
            Fault::Refused(refusal) => u8::from(refusal),
            Fault::Malformed => 15,
        }
    }
}

// How many positions a packet made known, or why it was not accepted.
fn recorded(answer: Result<(usize, u32), Refusal>) -> Result<usize, Fault>
    ensures { told result ≡ record_of (said (answer_of answer)) }
{
    match answer {
        Ok((n, _)) => Ok(n),
        Err(refusal) => Err(Fault::Refused(refusal)),
    }
}

// Keeps more bytes of a line that has not ended.
pub fn keep(line: &mut [u8], have: usize, bytes: &[u8]) -> usize
    requires { 8192 ≤ length line.old }
    ensures { KeptMore have result line.old line.new bytes.now }
{
    if LONGEST < have || LONGEST - have < bytes.len() {
        return TOO_LONG;
    }
    let end = have + bytes.len();
    line[have..end].copy_from_slice(bytes);
    end
}

// Opens the receiver that the first line names, if it names one, with all flows announced.
pub fn open_by(line: &[u8], have: usize, mem: &mut [u8]) -> bool
    requires { (8192 ≤ length line.now) × (length mem.old ≡ 65536) }
    ensures { OpenedBy have line.now mem.new result }
{
    if LONGEST < have {
        return false;
    }
    let Some(
        First {
            scheme,
            size,
            width,
        },
    ) = lines::read_first(&line[..have])
    else {
        return false;
    };
    let Some(setting) = wire::setting_of(scheme, size, width) else {
        return false;
    };
    // the receiver's own memory is the smaller, and opening tests it
    if ROOM < front::working_size(setting) {
        return false;
    }
    let announced = [255; 32];
    receiver::open(mem, scheme, size, width, &announced).is_ok()
}

// Answers a packet line: how many positions became known, or why it was not accepted.
pub fn answer_line(
    line: &[u8],
    have: usize,
    mem: &mut [u8],
    work: &mut [u8],
    packet: &mut [u8],
) -> Result<usize, Fault>
    requires { (8192 ≤ length line.now) × (length work.old ≡ 65536) × (4096 ≤ length packet.old) }
    ensures { Answered have line.now mem.old mem.new (told result) }
{
    if LONGEST < have {
        return Err(Fault::Malformed);
    }
    match lines::read_line(&line[..have], packet) {
        Some(Spoken::Source(flow, n)) => recorded(receiver::receive_source(
            mem,
            work,
            flow,
            &packet[..n],
        )),
        Some(Spoken::Repair(n)) => recorded(receiver::receive_repair(mem, work, &packet[..n])),
        None => Err(Fault::Malformed),
    }
}
