// The test that every edge's value is a chance: 0 or more at every corner.
ghost use Rattle.std.specs.Prelude.{◌≡◌, ◌<◌, pos, int_le};
ghost use Rattle.theory.specs.Words.{lowest};
ghost use Rattle.theory.specs.Answers.{possible_at, chance_ok};
ghost use Rattle.witness.specs.Regions.{box_of};
ghost use Rattle.witness.specs.Rows.{row_of};

use crate::lowest::lowest;
use crate::region::Region;
use crate::row_at::RowAt;
use chain::interface::Chain;

fn not_negative(value: i64) -> bool
    ensures { result ≡ int_le (pos 0) value }
{
    0 <= value
}

// Whether every edge of the row is possible at a corner.
fn possible_at(row: &RowAt, corner: u32) -> bool
    ensures { result ≡ possible_at row.now.region.now.grid (box_of row.now.region.now) (row_of row.now.row) corner }
{
    let point = row.point(corner);
    row.row
        .edges()
        .iter()
        .all(|edge| not_negative(point.value(&edge.coefficients)))
}

// Whether every edge of the row of a state is possible at every corner.
fn state_possible<C: Chain>(chain: &C, region: &Region, state: u32) -> bool
    requires known { state < (C.meaning chain.now).states }
    requires same { region.now.rates ≡ (C.meaning chain.now).rates }
    ensures { result ≡ chance_ok (C.meaning chain.now) region.now.grid (box_of region.now) state }
{
    let row = RowAt::new(chain, region, state);
    row.passes_at_corners(|corner| possible_at(&row, corner))
}

// The lowest state with an edge that is impossible at a corner.
pub(crate) fn first_impossible<C: Chain>(chain: &C, region: &Region) -> Option<u32>
    requires { region.now.rates ≡ (C.meaning chain.now).rates }
    ensures { result ≡ lowest (chance_ok (C.meaning chain.now) region.now.grid (box_of region.now)) (C.meaning chain.now).states }
{
    lowest(chain.states(), |state| state_possible(chain, region, state))
}
