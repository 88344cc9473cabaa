// The sum of rows, each times a coefficient, in strips of 64 bytes: by lists, or, for many rows, in buckets.
#![tactic(auto)]

ghost use Rattle.std.specs.Prelude.{◌≡◌, ◌≤◌, ◌+◌, ◌*◌};
ghost use Rattle.std.specs.List.{flat_map};
ghost use Rattle.words.specs.Words.{length, replicate};
ghost use Rattle.rows.specs.Rows.{add_scaled};
ghost use Rattle.rows.specs.Sums.{row_at, rows_added};
ghost use Rattle.lists.specs.Named.{ListedPairs, pairs_added};
ghost use Rattle.buckets.specs.Buckets.{Filled, Strips, weights};
ghost use Rattle.strips.specs.Ways.{most_rows, Ready};

use buckets::sorted::Orders;
use lists::{ListedRows, Lists, SpacedRows};

// How a strip is summed: by lists of the rows' pairs of digits; in buckets that are filled row by row; or in buckets that are filled from sorted
// rows.
#[derive(Clone, Copy)]
pub enum Way {
    Lists,
    Buckets,
    SortedBuckets,
}

impl Way {
    // How many rows are summed at a time.
    pub fn most_rows(self) -> usize
        ensures { result ≡ most_rows self }
    {
        match self {
            Way::Lists => 64,
            Way::Buckets | Way::SortedBuckets => 255,
        }
    }
}

// Adds to strip the sum of the buckets, each times its weight, whose pairs of digits are listed. In a frame of its own: in the caller's, what it lends
// to `add_sum` would stand there twice.
#[inline(never)]
fn add_buckets(strip: &mut [u8], lists: &Lists, buckets: &[[u8; 64]; 32])
    requires { (length strip.old ≡ 64) × ListedPairs weights lists.now.names lists.now.counts lists.now.pairs × Strips 32 buckets.now }
    ensures { strip.new ≡ add_scaled 1 strip.old (pairs_added (row_at (flat_map (λ x. x) buckets.now) 0 64 64) lists.now.names lists.now.counts lists.now.pairs lists.now.pairs (replicate 64 0)) }
{
    let mem = buckets.as_flattened();
    let rows = SpacedRows {
        mem,
        first: 0,
        stride: 64,
        count: 32,
    };
    ListedRows { lists, rows }.add_sum(strip);
}

// What strips are summed with: the coefficients, lists of the pairs of their digits or of those of the buckets' weights, and the orders of the rows,
// where they are sorted.
#[derive(Clone, Copy)]
struct Plan<'a> {
    way: Way,
    cs: &'a [u8],
    lists: &'a Lists,
    orders: &'a Orders,
}

impl Plan<'_> {
    // Fills the buckets, which are empty, with a strip of each row.
    fn fill(&self, buckets: &mut [[u8; 64]; 32], rows: SpacedRows)
        requires { Ready self.now.way self.now.cs.now self.now.lists.now self.now.orders.now × (rows.count ≡ length self.now.cs.now)
            × (buckets.old ≡ replicate 32 (replicate 64 0)) }
        ensures { Strips 32 buckets.new
            × Filled self.now.cs.now (length self.now.cs.now) rows.entry.mem.now rows.entry.first rows.entry.stride buckets.new }
    {
        if let Way::SortedBuckets = self.way {
            self.orders.fill(buckets, rows);
        } else {
            buckets::fill(buckets, self.cs, rows);
        }
    }

    // Adds to strip the sum of the strips of the rows, each times its coefficient. In the caller's frame, so that the buckets stand in one frame with
    // the lists and orders.
    #[inline(always)]
    fn add_sum(&self, strip: &mut [u8], rows: SpacedRows)
        requires { (length strip.old ≡ 64) × Ready self.now.way self.now.cs.now self.now.lists.now self.now.orders.now × (rows.count ≡ length self.now.cs.now) }
        ensures { strip.new ≡ rows_added self.now.cs.now rows.entry.mem.now rows.entry.first rows.entry.stride 64 strip.old }
    {
        match self.way {
            Way::Lists => ListedRows {
                lists: self.lists,
                rows,
            }
            .add_sum(strip),
            // One array for both ways: in an arm for each, the two would not share their 2 KB of stack.
            Way::Buckets | Way::SortedBuckets => {
                let mut aligned = Aligned {
                    buckets: [[0; 64]; 32],
                    beside: 0,
                };
                self.fill(&mut aligned.buckets, rows);
                add_buckets(strip, self.lists, &aligned.buckets);
            }
        }
    }
}

// Buckets at a multiple of 16 bytes, since the number beside them asks for one: at other places their strips lie across lines of the cache, and sums of
// many short rows took up to 1.3 times as long.
#[derive(Drop)]
struct Aligned {
    buckets: [[u8; 64]; 32],
    beside: u128,
}

// Lists the pairs of digits of the coefficients or, where rows go into buckets, of the buckets' weights; and sorts the rows where that is needed.
fn prepare(lists: &mut Lists, orders: &mut Orders, cs: &[u8], way: Way)
    requires { (lists.old.counts ≡ replicate 12 0) × (length cs.now ≤ most_rows way) }
    ensures { Ready way cs.now lists.new orders.new }
{
    match way {
        Way::Lists => lists.list(cs),
        Way::Buckets => lists.list(&buckets::WEIGHTS),
        Way::SortedBuckets => {
            orders.sort(cs);
            lists.list(&buckets::WEIGHTS);
        }
    }
}

// Adds to dst the rows of mem, row k times cs[k], in strips. The last one starts early enough to be whole, before the row if need be, and of it only
// the rest counts.
pub fn add_rows(dst: &mut [u8], cs: &[u8], mem: &[u8], a: usize, s: usize, way: Way)
    requires { (length dst.old ≤ s) × (a + length cs.now * s ≤ length mem.now) × (length cs.now ≤ most_rows way)
        × (64 ≤ a + length dst.old) }
    ensures { dst.new
        ≡ rows_added cs.now mem.now a s (length dst.old) dst.old }
{
    let mut lists = Lists::empty();
    let mut orders = Orders::empty();
    prepare(&mut lists, &mut orders, cs, way);
    let plan = Plan {
        way,
        cs,
        lists: &lists,
        orders: &orders,
    };
    let count = cs.len();
    let end = dst.len();
    for i in 0..end / 64 {
        let at = i * 64;
        plan.add_sum(
            &mut dst[at..at + 64],
            SpacedRows {
                mem,
                first: a + at,
                stride: s,
                count,
            },
        );
    }
    let rest = end % 64;
    if rest == 0 {
        return;
    }
    let at = end - rest;
    let skip = 64 - rest;
    let mut last = [0u8; 64];
    plan.add_sum(
        &mut last,
        SpacedRows {
            mem,
            first: a + at - skip,
            stride: s,
            count,
        },
    );
    rows::add(&mut dst[at..at + rest], &last[skip..skip + rest]);
}
