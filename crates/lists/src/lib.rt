// The sum of rows, each times a coefficient, by lists. The eight binary digits of a coefficient are four pairs; for each pair there are three
// lists, of the rows whose coefficients have its lower digit alone, its higher digit alone, and both. From the highest pair to the lowest the sum
// so far is doubled twice, and the rows of the lists are added, in strips of 64 bytes, each of which stays in registers.
#![tactic(auto)]

ghost use Rattle.std.specs.Prelude.{◌≡◌, ◌≤◌, ◌+◌, ◌-◌, ◌*◌, ◌<◌};
ghost use Rattle.words.specs.Words.{ℕ, length, replicate, get_or};
ghost use Rattle.memory.specs.Number.{Bytes};
ghost use Rattle.rows.specs.Rows.{add_scaled, scaled};
ghost use Rattle.rows.specs.Sums.{row_at};
ghost use Rattle.lists.specs.Digits.{shifted, is, pair_of, pair_is};
ghost use Rattle.lists.specs.Named.{added, Listed, list_of, ListedPairs, IsNaming, digit_added, pair_added, pairs_added};

use field::Gf256;

// 1 if the pair of binary digits of c from e on is v, else 0.
fn is_pair(c: u8, e: u32, v: u8) -> usize
    requires { e < 8 }
    ensures { result ≡ is (pair_of c e) v }
{
    if (c >> e) % 4 == v { 1 } else { 0 }
}

// Lists the rows whose coefficients have v as their pair of binary digits from e on. Gives how many.
fn rows_with(list: &mut [u8; 64], cs: &[u8], e: u32, v: u8) -> usize
    requires { (length cs.now ≤ 64) × (e < 8) }
    ensures { Listed (pair_is cs.now e v) (length cs.now) result list.new }
{
    let mut n: usize = 0;
    for (k, c) in cs.iter().enumerate() {
        list[n] = k as u8;
        n += is_pair(*c, e, v);
    }
    n
}

// How many of the lowest pairs have all digits of the coefficients: one, as where all are 0 or 1, or all four.
fn pairs_of(cs: &[u8]) -> usize
    ensures { (result ≤ 4) × ((k : ℕ) → shifted cs.now (2 * result) k ≡ 0) }
{
    if cs.iter().any(|c| 4 <= *c) { 4 } else { 1 }
}

// The lists of the pairs, how many rows each has, and how many pairs there are.
#[derive(Drop)]
pub struct Lists {
    pub names: [[u8; 64]; 12],
    pub counts: [usize; 12],
    pub pairs: usize,
}

impl Lists {
    // No list has a row.
    pub fn empty() -> Lists
        ensures { result.counts ≡ replicate 12 0 }
    {
        Lists {
            names: [[0; 64]; 12],
            counts: [0; 12],
            pairs: 0,
        }
    }

    // Lists the rows by the pairs of their coefficients. No list has a row at first.
    pub fn list(&mut self, cs: &[u8])
        requires { (self.old.counts ≡ replicate 12 0) × (length cs.now ≤ 64) }
        ensures { ListedPairs cs.now self.new.names self.new.counts self.new.pairs }
    {
        let pairs = pairs_of(cs);
        for t in 0..3 * pairs {
            self.counts[t] = rows_with(
                &mut self.names[t],
                cs,
                (t / 3 * 2) as u32,
                (t % 3 + 1) as u8,
            );
        }
        self.pairs = pairs;
    }
}

// Rows in lent memory, or their parts from some byte on: the first from `first` on, one every `stride` bytes. Each has room for a strip.
#[derive(Clone, Copy)]
pub struct SpacedRows<'a> {
    pub mem: &'a [u8],
    pub first: usize,
    pub stride: usize,
    pub count: usize,
    ghost fits: { (k : ℕ) → k < count → first + k * stride + 64 ≤ length mem.now },
    ghost bytes: { Bytes mem.now },
}

impl<'a> SpacedRows<'a> {
    // The first 64 bytes of row k.
    // Kept: a slice, since `first_chunk`, which gives an array, tests its length when it runs, and each sum of rows took up to 1.3 times as long.
    pub fn strip(&self, k: usize) -> &'a [u8]
        requires { k < self.now.count }
        ensures { (result.now ≡ row_at self.now.mem.now self.now.first self.now.stride 64 k) × (length result.now ≡ 64) }
    {
        let mem = self.mem;
        let at = self.first + k * self.stride;
        &mem[at..at + 64]
    }
}

// strip becomes 2 * strip.
fn double_strip(strip: &mut [u8; 64])
    ensures { strip.new ≡ scaled 2 strip.old }
{
    for x in strip.iter_mut() {
        *x = Gf256(*x).double().0;
    }
}

// acc becomes acc + strip. The sum is made in registers, so that it does not matter to the compiler whether they overlap.
pub fn add_strip(acc: &mut [u8; 64], strip: &[u8])
    requires { length strip.now ≡ 64 }
    ensures { acc.new ≡ add_scaled 1 acc.old strip.now }
{
    let mut sum = *acc;
    for (i, x) in sum.iter_mut().enumerate() {
        *x ^= strip[i];
    }
    *acc = sum;
}

// Lists and the rows that they name.
#[derive(Clone, Copy)]
pub struct ListedRows<'a, 'b> {
    pub lists: &'a Lists,
    pub rows: SpacedRows<'b>,
    ghost most: { lists.now.pairs ≤ 4 },
    ghost named: { IsNaming lists.now.names lists.now.counts rows.count },
}

impl ListedRows<'_, '_> {
    // acc becomes acc + the rows of list t.
    fn add_list(&self, acc: &mut [u8; 64], t: usize)
        requires { t < 12 }
        ensures { let rows = self.now.rows in
            let lists = self.now.lists.now in
            acc.new ≡ added (row_at rows.mem.now rows.first rows.stride 64) (list_of lists.names t) (get_or lists.counts t 0) acc.old }
    {
        let list = &self.lists.names[t];
        let n = self.lists.counts[t];
        let rows = self.rows;
        for k in &list[..n] {
            add_strip(acc, rows.strip(*k as usize));
        }
    }

    // acc becomes 2 * acc + both + the rows of list t.
    fn add_digit(&self, acc: &mut [u8; 64], both: &[u8; 64], t: usize)
        requires { t < 12 }
        ensures { let rows = self.now.rows in
            let lists = self.now.lists.now in
            acc.new ≡ digit_added (row_at rows.mem.now rows.first rows.stride 64) lists.names lists.counts t both.now acc.old }
    {
        double_strip(acc);
        add_strip(acc, both);
        self.add_list(acc, t);
    }

    // acc becomes 4 * acc + the rows that pair p chooses. Those with both digits are summed once and added twice.
    fn add_pair(&self, acc: &mut [u8; 64], p: usize)
        requires { p < 4 }
        ensures { let rows = self.now.rows in
            let lists = self.now.lists.now in
            acc.new ≡ pair_added (row_at rows.mem.now rows.first rows.stride 64) lists.names lists.counts p acc.old }
    {
        let mut both = [0u8; 64];
        self.add_list(&mut both, 3 * p + 2);
        self.add_digit(acc, &both, 3 * p + 1);
        self.add_digit(acc, &both, 3 * p);
    }

    // Adds to dst the sum of the strips that the lists choose, from the highest of the pairs to the lowest.
    pub fn add_sum(&self, dst: &mut [u8])
        requires { length dst.old ≡ 64 }
        ensures { let rows = self.now.rows in
            let lists = self.now.lists.now in
            dst.new ≡ add_scaled 1 dst.old (pairs_added (row_at rows.mem.now rows.first rows.stride 64) lists.names lists.counts lists.pairs lists.pairs (replicate 64 0)) }
    {
        let mut acc = [0u8; 64];
        for p in (0..self.lists.pairs).rev() {
            self.add_pair(&mut acc, p);
        }
        rows::add(&mut dst[..64], &acc);
    }

    // The sum of the strips that the lists choose, from the highest of the pairs to the lowest: what `add_sum` makes of zeros.
    pub fn sum(&self) -> [u8; 64]
        ensures { let rows = self.now.rows in
            let lists = self.now.lists.now in
            result ≡ pairs_added (row_at rows.mem.now rows.first rows.stride 64) lists.names lists.counts lists.pairs lists.pairs (replicate 64 0) }
    {
        let mut sum = [0u8; 64];
        self.add_sum(&mut sum);
        sum
    }
}

#[cfg(test)]
mod tests {
    use super::*;
    use std::test::Fail;

    // The sum of the rows of mem, 64 bytes each, row k times cs[k].
    fn sum_of(cs: &[u8], mem: &[u8]) -> [u8; 64]
        requires { (length cs.now ≤ 64) × (length cs.now * 64 ≤ length mem.now) }
    {
        let mut lists = Lists::empty();
        lists.list(cs);
        let rows = SpacedRows {
            mem,
            first: 0,
            stride: 64,
            count: cs.len(),
        };
        ListedRows {
            lists: &lists,
            rows,
        }
        .sum()
    }

    // The first row three times, the second four times, the third not at all: 3 * 5 is 0x0F, and 4 * 0x80 is 2 * 0x1D, since 2 * 0x80 is 0x1D.
    #[test]
    fn sums_three_rows() -> Result<(), Fail> {
        let mut mem = [0xFFu8; 192];
        mem[..64].fill(5);
        mem[64..128].fill(0x80);
        let sum = sum_of(&[3, 4, 0], &mem);
        (sum == [0x35; 64]).then_some(()).ok_or(sum)?;
        Ok(())
    }
}
