// The sum of many rows, each times a coefficient; the rows stand in mem from a on, one every s bytes. Where few coefficients are not 0: one row
// after the other. Else in strips, each of which is summed over all rows.
#![tactic(auto)]

ghost use Rattle.std.specs.Prelude.{◌≡◌, ◌≤◌, ◌+◌, ◌*◌, ◌<◌};
ghost use Rattle.words.specs.Words.{length, replicate, true};
ghost use Rattle.rows.specs.Rows.{add_scaled};
ghost use Rattle.rows.specs.Sums.{row_at, rows_added};
ghost use Rattle.strips.specs.Ways.{most_rows};

use field::Gf256;
use strips::Way;

// Strips are faster from so many coefficients on that are neither 0 nor 1, and one more for every 16 rows, since each row is looked at for every list.
const PRODUCTS_FROM: usize = 4;

// And, in rows of so many bytes, from so many coefficients on that are not 0, and one more for every 16 rows.
const LONG: usize = 512;

const SUMS_FROM: usize = 24;

// Buckets are faster from so many coefficients on that are neither 0 nor 1; filled row by row in rows of at most so many bytes.
const BUCKETS_FROM: usize = 48;

const SHORT: usize = 320;

// dst becomes dst + c * (row k of mem).
fn add_row(dst: &mut [u8], mem: &[u8], a: usize, s: usize, k: usize, c: Gf256)
    requires { (length dst.old ≤ s) × (a + k * s + s ≤ length mem.now) }
    ensures { dst.new
        ≡ add_scaled c.0 dst.old (row_at mem.now a s (length dst.old) k) }
{
    if c.0 == 0 {
        return;
    }
    let at = a + k * s;
    let n = dst.len();
    if c.0 == 1 {
        rows::add(dst, &mem[at..at + n]);
        return;
    }
    rows::add_scaled(dst, &mem[at..at + n], c);
}

// Adds to dst the rows of mem, row k times cs[k].
fn add_rows(dst: &mut [u8], cs: &[u8], mem: &[u8], a: usize, s: usize)
    requires { (length dst.old ≤ s) × (a + length cs.now * s ≤ length mem.now) }
    ensures { dst.new
        ≡ rows_added cs.now mem.now a s (length dst.old) dst.old }
{
    for (k, c) in cs.iter().enumerate() {
        add_row(dst, mem, a, s, k, Gf256(*c));
    }
}

// Whether at least `enough` coefficients are at least `least`. Only the time depends on it.
fn has(cs: &[u8], least: u8, enough: usize) -> bool {
    cs.iter().filter(|c| least <= **c).take(enough).count() == enough
}

// Whether strips are faster, for rows of n bytes. Only the time depends on it.
fn pays(n: usize, cs: &[u8]) -> bool {
    let more = cs.len() / 16;
    if has(cs, 2, PRODUCTS_FROM + more) {
        return true;
    }
    if n < LONG {
        return false;
    }
    has(cs, 1, SUMS_FROM + more)
}

// The fastest way, for rows of n bytes. Only the time depends on it.
fn way(n: usize, cs: &[u8]) -> Way {
    if !has(cs, 2, BUCKETS_FROM) {
        return Way::Lists;
    }
    if SHORT < n {
        Way::SortedBuckets
    } else {
        Way::Buckets
    }
}

// Whether there are 64 bytes up to the end of the first row, of n bytes from a on, and so room for a strip.
fn holds_strip(a: usize, n: usize) -> bool
    ensures { result ≡ true → 64 ≤ a + n }
{
    if 64 <= n {
        return true;
    }
    64 - n <= a
}

// How many of the rows that are left are summed next.
fn block(left: usize, way: Way) -> usize
    requires { 0 < left }
    ensures { (0 < result) × (result ≤ left) × (result ≤ most_rows way) }
{
    left.min(way.most_rows())
}

// Adds to dst the rows of mem, row k times cs[k], in strips, so many rows at a time as the way takes.
fn add_blocks(dst: &mut [u8], cs: &[u8], mem: &[u8], a: usize, s: usize, way: Way)
    requires { (length dst.old ≤ s) × (a + length cs.now * s ≤ length mem.now) × (64 ≤ a + length dst.old) }
    ensures { dst.new
        ≡ rows_added cs.now mem.now a s (length dst.old) dst.old }
{
    let end = cs.len();
    let mut k: usize = 0;
    while k < end {
        let n = block(end - k, way);
        strips::add_rows(dst, &cs[k..k + n], mem, a + k * s, s, way);
        k += n;
    }
}

// dst becomes dst + the sum of the rows of mem, row k times cs[k].
pub fn add_combination(dst: &mut [u8], cs: &[u8], mem: &[u8], a: usize, s: usize)
    requires { (length dst.old ≤ s) × (a + length cs.now * s ≤ length mem.now) }
    ensures { dst.new
        ≡ rows_added cs.now mem.now a s (length dst.old) dst.old }
{
    let n = dst.len();
    if holds_strip(a, n) {
        if pays(n, cs) {
            add_blocks(dst, cs, mem, a, s, way(n, cs));
            return;
        }
    }
    add_rows(dst, cs, mem, a, s);
}

// dst becomes the sum of the rows of mem, row k times cs[k].
pub fn combine(dst: &mut [u8], cs: &[u8], mem: &[u8], a: usize, s: usize)
    requires { (length dst.old ≤ s) × (a + length cs.now * s ≤ length mem.now) }
    ensures { dst.new
        ≡ rows_added cs.now mem.now a s (length dst.old) (replicate (length dst.old) 0) }
{
    dst.fill(0);
    add_combination(dst, cs, mem, a, s);
}
