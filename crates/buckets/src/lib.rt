// Rows in buckets of 64 bytes: bucket v, for v below 16, is the sum of the rows whose coefficients have v as their low half, and bucket 16 + v
// that of the rows whose coefficients have v as their high half. The sum of the rows, each times its coefficient, is that of the buckets, each
// times its weight: v, and 16 * v.
#![tactic(auto)]

ghost use Rattle.std.specs.Prelude.{◌≡◌};
ghost use Rattle.words.specs.Words.{length, replicate};
ghost use Rattle.buckets.specs.Buckets.{Filled, Strips};

use lists::SpacedRows;

pub mod sorted;

pub static WEIGHTS: [u8; 32] = [
    0, 1, 2, 3, 4, 5, 6, 7, 8, 9, 10, 11, 12, 13, 14, 15, 0, 16, 32, 48, 64, 80, 96, 112, 128, 144,
    160, 176, 192, 208, 224, 240,
];

// Fills the buckets, which are empty, with a strip of each row.
pub fn fill(buckets: &mut [[u8; 64]; 32], cs: &[u8], rows: SpacedRows)
    requires { (buckets.old ≡ replicate 32 (replicate 64 0)) × (rows.count ≡ length cs.now) }
    ensures { Strips 32 buckets.new
        × Filled cs.now (length cs.now) rows.entry.mem.now rows.entry.first rows.entry.stride buckets.new }
{
    for (k, c) in cs.iter().enumerate() {
        let strip = rows.strip(k);
        let c = *c as usize;
        lists::add_strip(&mut buckets[c % 16], strip);
        lists::add_strip(&mut buckets[16 + c / 16], strip);
    }
}
