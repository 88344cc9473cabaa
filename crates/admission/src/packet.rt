// The steps that both packet calls share: where the packet lies, what one more equation makes of it, and the state after it.
ghost use Rattle.std.specs.Prelude.{◌≡◌, ◌≤◌, ◌<◌};
ghost use Rattle.words.specs.Words.{length};
ghost use Rattle.wire.specs.Settings.{Valid};
ghost use Rattle.table.specs.Window.{Fits};
ghost use Rattle.table.specs.Packet.{Works};
ghost use Rattle.history.specs.History.{farthest};
ghost use Rattle.admission.specs.Joining.{header_for, Based};
ghost use Rattle.admission.specs.Reading.{Ready, Placed};
ghost use Rattle.admission.specs.Steps.{location_found, gathered_by, EquationAdmitted, LocatedBy, Finished, Accepted};

use gather::Verdict;
use holding::{Header, find, front};
use table::Shape;
use wire::{Esi, Refusal};

// Where a packet lies: the window that it brings about, by how much the base rises for it, how many positions stay, and the row of its first
// position and the distance of that from the new base.
#[derive(Clone, Copy)]
pub struct Location {
    pub shape: Shape,
    pub rise: usize,
    pub stay: usize,
    pub first: usize,
    pub offset: usize,
}

// A packet that passed its checks: the header for it, where it lies, how many positions it names, how many symbols it has, and the draws that its
// coefficients took.
#[derive(Clone, Copy)]
pub struct Passed {
    pub header: Header,
    pub location: Location,
    pub named: usize,
    pub count: usize,
    pub draws: u32,
}

// The header of the receiver that the memory holds, where `room` bytes of working memory are enough for it.
pub fn ready(mem: &[u8], room: usize) -> Result<Header, Refusal>
    ensures { Ready mem.now room result }
{
    let header = front::read_header(mem).ok_or(Refusal::Unopened)?;
    if room < front::working_size(header.setting) {
        return Err(Refusal::Short);
    }
    Ok(header)
}

// The header for a packet whose first ESI is `first`: where there is no base yet, that is taken for it.
pub fn join(header: Header, first: Esi) -> Header
    requires { Valid header.setting }
    ensures { result ≡ header_for header first.0 }
{
    if header.joined {
        return header;
    }
    Header {
        joined: true,
        oldest: first.0 as usize % header.setting.width,
        esi: first,
        ..header
    }
}

// How far past the base the last position that a packet names may lie.
const FARTHEST: usize = 65536;

// Where `n` symbols from the ESI `first` on lie.
pub fn locate(header: Header, first: Esi, n: usize) -> Result<Location, Refusal>
    requires { Valid header.setting × (header.oldest < header.setting.width) × (n ≤ header.setting.width) }
    ensures { result ≡ location_found header first.0 n }
{
    let d = find::side_of(header.esi, first).ok_or(Refusal::Behind)?;
    if d + n > FARTHEST {
        return Err(Refusal::Ahead);
    }
    let width = header.setting.width;
    let rise = (d + n).saturating_sub(width);
    let shape = Shape {
        width,
        size: header.setting.size,
        oldest: (header.oldest + rise) % width,
    };
    Ok(Location {
        shape,
        rise,
        stay: width.saturating_sub(rise),
        first: (header.oldest + d) % width,
        offset: d - rise,
    })
}

// The header for a packet whose `n` symbols begin at the ESI `first`, and where they lie by it.
pub fn place(header: Header, first: Esi, n: usize) -> Result<(Header, Location), Refusal>
    requires { Valid header.setting × (header.oldest < header.setting.width) × (n ≤ header.setting.width) }
    ensures { Placed header first.0 n result }
{
    let based = join(header, first);
    let location = locate(based, first, n)?;
    Ok((based, location))
}

// What the equations come to, of which `kept` rows were kept, with one more that was found to be so.
pub fn gathered_by(kept: usize, verdict: Verdict) -> Option<usize>
    requires { kept ≤ 255 }
    ensures { result ≡ gathered_by kept verdict }
{
    match verdict {
        Verdict::Kept => Some(kept + 1),
        Verdict::Implied => Some(kept),
        Verdict::Contradiction => None,
    }
}

// An equation with the coefficients in the columns from `first` on, and the symbol that the row `kept` of working memory has, after others of
// which `kept` rows were kept.
pub fn admit_equation(
    mem: &[u8],
    work: &mut [u8],
    coefficients: &[u8],
    location: Location,
    kept: usize,
    first: usize,
) -> Option<usize>
    requires { Fits location.shape.width location.shape.size mem.now × Works location.shape.width location.shape.size kept work.old
        × (location.shape.oldest < location.shape.width) × (first < location.shape.width) × (length coefficients.now ≤ location.shape.width) }
    ensures { EquationAdmitted location kept first coefficients.now result mem.now work.old work.new }
{
    let shape = location.shape;
    let n = coefficients.len();
    gather::lay(work, coefficients, shape, kept, first);
    let verdict = gather::admit(mem, work, shape, location.stay, kept, first, n);
    gathered_by(kept, verdict)
}

// The packet's rows, `kept` in working memory, join the state's, and the base rises. Gives how many positions have become known.
fn finish(mem: &mut [u8], work: &[u8], header: Header, location: Location, kept: usize) -> usize
    requires { Based mem.old header × Works header.setting.width header.setting.size kept work.now
        × (location.shape.oldest < 65535) × (location.rise ≤ farthest) }
    ensures { Finished header location kept result work.now mem.old mem.new }
{
    let count = placing::commit(mem, work, header.shape(), location.rise, kept);
    let esi = header.esi;
    let next = esi.plus(location.rise as u32);
    memory::store_u16(mem, 8, (location.shape.oldest + 1) as u16);
    memory::store_u32(mem, 12, next.0);
    count
}

// The packet is accepted, with `own` symbols of its own: its rows join the state's, the base rises, the marks follow, and its own positions are heard.
// Gives how many positions have become known.
pub fn accept(
    mem: &mut [u8],
    work: &[u8],
    header: Header,
    location: Location,
    kept: usize,
    own: usize,
) -> usize
    requires { Based mem.old header × Works header.setting.width header.setting.size kept work.now
        × (location.shape.oldest < 65535) × (location.rise ≤ farthest) × LocatedBy header location own }
    ensures { Accepted header location kept own result work.now mem.old mem.new }
{
    let had = marks::known_among(mem, header.shape(), location.rise + location.offset, own);
    let known = finish(mem, work, header, location, kept);
    let has = marks::known_among(mem, location.shape, location.offset, own);
    let others = known != has.saturating_sub(had);
    marks::update(
        mem,
        location.shape,
        header.oldest,
        location.rise,
        location.offset,
        own,
        others,
    );
    origins::update(mem, location.shape, location.stay, location.offset, own);
    known
}
