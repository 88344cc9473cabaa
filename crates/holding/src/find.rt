// Where the position and the symbol with an ESI stand.
ghost use Rattle.std.specs.Prelude.{◌≡◌};
ghost use Rattle.history.specs.History.{side_of};
ghost use Rattle.holding.specs.Header.{header_in};
ghost use Rattle.holding.specs.Inner.{side_found, stand_of, Spotted};

use super::{Spot, front};
use table::Shape;
use wire::{Esi, Refusal};

// From this distance on an ESI lies behind the base: half of all ESIs.
const HALFWAY: u32 = 2147483648;

// On which side of the base an ESI lies.
pub fn side_of(base: Esi, esi: Esi) -> Option<usize>
    ensures { result ≡ side_found (side_of base.0 esi.0) }
{
    let d = esi.distance(base);
    (d < HALFWAY).then_some(d as usize)
}

// Where the position with an ESI stands.
pub fn stand(mem: &[u8], esi: Esi) -> Result<(Shape, usize), Refusal>
    ensures { result ≡ stand_of esi.0 (header_in mem.now) }
{
    let header = front::read_header(mem).ok_or(Refusal::Unopened)?;
    if !header.joined {
        return Err(Refusal::Unknown);
    }
    let d = side_of(header.esi, esi).ok_or(Refusal::Behind)?;
    if d >= header.setting.width {
        return Err(Refusal::Unknown);
    }
    Ok((header.shape(), d))
}

// Finds the symbol.
pub fn find(mem: &[u8], esi: Esi) -> Result<Spot, Refusal>
    ensures { Spotted mem.now esi.0 result }
{
    let (shape, d) = stand(mem, esi)?;
    let row = table::row_of(shape, d);
    if !placing::is_known(mem, shape, row) {
        return Err(Refusal::Unknown);
    }
    let heard = origins::is_heard(mem, shape, row);
    Ok(Spot {
        at: table::symbol_offset(shape, row),
        size: shape.size,
        heard,
    })
}
