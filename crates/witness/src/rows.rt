// The row test, for any chain and any claim.
ghost use Rattle.std.specs.Prelude.{◌≡◌, ℕ, ◌*◌, ◌^◌, ◌<◌, ◌≤◌, pos, ◌+ℤ◌, unsigned_abs};
ghost use Rattle.theory.specs.Words.{◌·◌, lowest};
ghost use Rattle.theory.specs.Boxes.{corner_of};
ghost use Rattle.theory.specs.Witness.{mean};
ghost use Rattle.theory.specs.Answers.{in_order, kept_at, claim_ok};
ghost use Rattle.witness.specs.Regions.{box_of};
ghost use Rattle.witness.specs.Rows.{room, row_of};

use crate::claim::Claim;
use crate::lowest::lowest;
use crate::region::Region;
use crate::row_at::RowAt;
use crate::told::is_bad;
use chain::interface::Chain;

fn term(number: u32, value: i64) -> i128
    requires { unsigned_abs value ≤ room 0 }
    ensures product { result ≡ number · value }
    ensures bound { unsigned_abs result ≤ 2 ^ 78 }
{
    number as i128 * value as i128
}

// The sum over the edges of a row at a corner: an edge's value times the claim's number of its successor.
fn weighed_sum<T: Claim>(claim: &T, row: &RowAt, corner: u32) -> i128
    ensures sum { result ≡ mean row.now.region.now.grid (corner_of (box_of row.now.region.now) (row_of row.now.row) corner) (row_of row.now.row) (T.said claim.now).number }
    ensures bound { unsigned_abs result ≤ 2 ^ 82 }
{
    let point = row.point(corner);
    let edges = row.row.edges();
    let mut sum: i128 = 0;
    for edge in edges {
        sum += term(
            claim.number(edge.successor),
            point.value(&edge.coefficients),
        );
    }
    sum
}

fn scaled(number: u32, scale: u64) -> i128
    requires { scale ≤ 2 ^ 40 }
    ensures product { result ≡ pos (number * scale) }
    ensures bound { unsigned_abs result ≤ 2 ^ 72 }
{
    number as i128 * scale as i128
}

fn in_order(at_most: bool, x: i128, y: i128) -> bool
    ensures { result ≡ in_order at_most x y }
{
    if at_most { x <= y } else { y <= x }
}

// Whether the claim holds at a corner of the row of a state.
fn holds_at<T: Claim>(claim: &T, row: &RowAt, corner: u32) -> bool
    ensures { result ≡ kept_at (T.said claim.now) row.now.unit row.now.region.now.grid (box_of row.now.region.now) (row_of row.now.row) row.now.state corner }
{
    let sum = weighed_sum(claim, row, corner);
    let scale = row.scale();
    let left = scaled(claim.adds(row.state), scale) + sum;
    in_order(
        claim.at_most(),
        left,
        scaled(claim.number(row.state), scale),
    )
}

// Whether the claim holds at every corner of the row of a state, or does not test the state.
fn state_holds<C: Chain, T: Claim>(chain: &C, claim: &T, region: &Region, state: u32) -> bool
    requires known { state < (C.meaning chain.now).states }
    requires same { region.now.rates ≡ (C.meaning chain.now).rates }
    ensures { result ≡ claim_ok (T.said claim.now) (C.meaning chain.now) region.now.grid (box_of region.now) state }
{
    if !claim.tests(is_bad(chain, state), state) {
        return true;
    }
    let row = RowAt::new(chain, region, state);
    row.passes_at_corners(|corner| holds_at(claim, &row, corner))
}

// The lowest state at which the claim fails.
pub(crate) fn first_failing<C: Chain, T: Claim>(
    chain: &C,
    claim: &T,
    region: &Region,
) -> Option<u32>
    requires { region.now.rates ≡ (C.meaning chain.now).rates }
    ensures { result ≡ lowest (claim_ok (T.said claim.now) (C.meaning chain.now) region.now.grid (box_of region.now)) (C.meaning chain.now).states }
{
    lowest(chain.states(), |state| {
        state_holds(chain, claim, region, state)
    })
}
