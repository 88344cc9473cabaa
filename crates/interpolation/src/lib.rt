// The Reed-Solomon code of RFC 5510 over GF(2^8): the coefficients of a symbol of a block.
#![tactic(auto)]

ghost use Rattle.std.specs.Prelude.{◌≡◌, ◌+◌, ◌≤◌, ◌<◌};
ghost use Rattle.words.specs.Words.{bit_xor, length};
ghost use Rattle.field.specs.Powers.{power};
ghost use Rattle.memory.specs.Part.{splice};
ghost use Rattle.interpolation.specs.Lagrange.{lagrange, lagranges};

use field::{Gf256, tables};

// 2^a - 2^b
fn gap(a: usize, b: usize) -> Gf256
    requires { (a < 255) × (b < 255) }
    ensures { result.0 ≡ bit_xor (power a) (power b) }
{
    Gf256(tables::power(a)) + Gf256(tables::power(b))
}

// A repair symbol of a block: how many source symbols the block has, and its own ESI.
#[derive(Clone, Copy)]
struct Repair {
    k: usize,
    esi: usize,
    ghost beyond: { (0 < k) × (k ≤ esi) × (esi < 255) },
}

impl Repair {
    // The coefficient of source symbol 0.
    fn first(self) -> Gf256
        ensures { result.0 ≡ lagrange self.k 0 self.esi }
    {
        let mut c = Gf256::ONE;
        for m in 1..self.k {
            c = c * (gap(self.esi, m) * gap(0, m).inverse());
        }
        c
    }

    // The coefficient of source symbol i + 1 from that of source symbol i.
    fn next(self, i: usize, c: Gf256) -> Gf256
        requires { (i + 1 < self.k) × (c.0 ≡ lagrange self.k i self.esi) }
        ensures { result.0 ≡ lagrange self.k (i + 1) self.esi }
    {
        let up = gap(self.esi, i) * gap(i, self.k - 1);
        let turn = Gf256(tables::power(self.k - 2)) * gap(i + 1, 0);
        let down = gap(self.esi, i + 1) * turn;
        c * (up * down.inverse())
    }

    // The coefficients.
    // Kept: `i` from 1, since the first coefficient is found in another way, and after `skip(1)` a proof knows the length alone.
    fn fill(self, out: &mut [u8])
        requires { length out.old ≡ self.k }
        ensures { out.new ≡ lagranges self.k self.esi }
    {
        let mut c = self.first();
        out[0] = c.0;
        for i in 1..self.k {
            c = self.next(i - 1, c);
            out[i] = c.0;
        }
    }
}

// The coefficients of the symbol with an ESI in a block of as many source symbols as `out` has bytes.
pub fn fill(out: &mut [u8], esi: usize)
    requires { (0 < length out.old) × (length out.old ≤ 255) × (esi < 255) }
    ensures { out.new ≡ lagranges (length out.old) esi }
{
    if esi < out.len() {
        out.fill(0);
        out[esi] = 1;
    } else {
        let k = out.len();
        Repair { k, esi }.fill(out);
    }
}

// The same in the k bytes of mem from a on.
// Kept: a part by its place in the memory. Callers' clauses speak of the whole memory.
pub fn fill_part(mem: &mut [u8], a: usize, k: usize, esi: usize)
    requires { (a + k ≤ length mem.old) × (0 < k) × (k ≤ 255) × (esi < 255) }
    ensures { mem.new ≡ splice a (lagranges k esi) mem.old }
{
    fill(&mut mem[a..a + k], esi);
}
