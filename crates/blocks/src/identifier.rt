// The payload identifier of RFC 6865 for m = 8, six bytes: the block number in 24 bits, the ESI in 8, the number of source symbols in 16. It stands after
// the ADU of a source packet, and before the symbol of a repair packet.
ghost use Rattle.std.specs.Prelude.{◌≡◌, ◌≤◌, ◌+◌, ◌<◌};
ghost use Rattle.words.specs.Words.{length};
ghost use Rattle.memory.specs.Part.{splice};
ghost use Rattle.blocks.specs.Identifiers.{identifier_at, identifier_bytes};

#[derive(Clone, Copy)]
pub struct Identifier {
    pub block: u32,
    pub esi: u8,
    pub k: u16,
}

// The identifier in the six bytes at `at`.
pub fn read(packet: &[u8], at: usize) -> Identifier
    requires { at + 6 ≤ length packet.now }
    ensures { result ≡ identifier_at packet.now at }
{
    let word = memory::load_u32(packet, at);
    let k = memory::load_u16(packet, at + 4);
    Identifier {
        block: word / 256,
        esi: (word % 256) as u8,
        k,
    }
}

// The six bytes at `at` become those of the identifier.
pub fn write(out: &mut [u8], at: usize, id: Identifier)
    requires { (at + 6 ≤ length out.old) × (id.block < 16777216) }
    ensures { out.new ≡ splice at (identifier_bytes id) out.old }
{
    memory::store_u32(out, at, id.block * 256 + id.esi as u32);
    memory::store_u16(out, at + 4, id.k);
}
