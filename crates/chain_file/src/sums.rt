// The sums of a row.

ghost use Rattle.std.specs.Prelude.{◌≡◌, ℕ, ◌+◌, ◌-◌, ◌*◌, ◌^◌, ◌<◌, ◌≤◌, length, pos, neg_ℤ, ◌≤ℤ◌, IsTrue, ◌↔◌};
ghost use Rattle.chain.specs.Chains.{due};
ghost use Rattle.chain_file.specs.Columns.{column, tallied};

use chain::record::EdgeRecord;

// The sum of the coefficients number `i` of some edges.
pub(crate) fn column(edges: &[EdgeRecord], i: usize) -> i64
    requires number { i < 8 }
    requires few { length edges.now ≤ 8 }
    ensures value { result ≡ column i edges.now }
    ensures low { neg_ℤ (pos (32768 * length edges.now)) ≤ℤ result }
    ensures high { result ≤ℤ pos (32768 * length edges.now) }
{
    let mut sum = 0;
    for edge in edges {
        sum += i64::from(edge.coefficients[i]);
    }
    sum
}

// What the sum number `i` has to be.
pub(crate) fn due(unit: u32, i: usize) -> i64
    ensures { result ≡ due unit i }
{
    if i == 0 { i64::from(unit) } else { 0 }
}

// Whether the sum number `i` of some edges is what it has to be.
fn adds_up(edges: &[EdgeRecord], unit: u32, i: usize) -> bool
    requires number { i < 8 }
    requires few { length edges.now ≤ 8 }
    ensures { IsTrue result ↔ (column i edges.now ≡ due unit i) }
{
    column(edges, i) == due(unit, i)
}

// Whether the sums number 0 to `k` - 1 of some edges are what they have to be.
pub(crate) fn tally(edges: &[EdgeRecord], unit: u32, k: usize) -> bool
    requires numbers { k ≤ 8 }
    requires few { length edges.now ≤ 8 }
    ensures { result ≡ tallied unit edges.now k }
{
    (0..k).all(|i| adds_up(edges, unit, i))
}
