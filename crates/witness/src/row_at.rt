// The row of a state, as it is judged.
ghost use Rattle.std.specs.Prelude.{◌≡◌, ℕ, ◌^◌, ◌<◌, ◌≤◌, Bool};
ghost use Rattle.witness.specs.Rows.{Readable};

use crate::corner::{Point, is_high};
use crate::lowest::lowest;
use crate::region::Region;
use chain::interface::Chain;
use chain::record::{NO_ROW, RowRecord};
use std::array;

// The row of a state of a chain, with the chain's unit and the region in which the rates lie.
#[derive(Drop)]
pub(crate) struct RowAt<'a> {
    pub region: &'a Region,
    pub unit: u32,
    pub state: u32,
    pub row: RowRecord,
    ghost unit_few: { unit ≤ 1000 },
    ghost readable: { Readable region.now.rates row },
}

impl<'a> RowAt<'a> {
    ghost use Rattle.theory.specs.Words.{passes};
    ghost use Rattle.theory.specs.Values.{named};
    ghost use Rattle.theory.specs.Boxes.{corner_of};
    ghost use Rattle.theory.specs.Witness.{at, scale};
    ghost use Rattle.witness.specs.Regions.{box_of};
    ghost use Rattle.witness.specs.Rows.{row_of};
    ghost use Rattle.witness.specs.Tests.{TakesBelow, AnswersBelow};

    pub(crate) fn new<C: Chain>(chain: &C, region: &'a Region, state: u32) -> RowAt<'a>
        requires known { state < (C.meaning chain.now).states }
        requires same { region.now.rates ≡ (C.meaning chain.now).rates }
        ensures region { result.region.now ≡ region.now }
        ensures unit { result.unit ≡ (C.meaning chain.now).unit }
        ensures state { result.state ≡ state }
        ensures row { row_of result.row ≡ (C.meaning chain.now).row state }
    {
        let mut row = NO_ROW;
        let Ok(()) = chain.row(state, &mut row) else {
            unreachable()
        };
        RowAt {
            region,
            unit: chain.unit(),
            state,
            row,
        }
    }

    // The rates at a corner.
    pub(crate) fn point(&self, corner: u32) -> Point
        ensures grid { result.grid ≡ self.now.region.now.grid }
        ensures named { result.named ≡ self.now.row.rate_count }
        ensures numbers { (p : ℕ) → p < self.now.row.rate_count → at result.numbers p ≡ corner_of (box_of self.now.region.now) (row_of self.now.row) corner p }
    {
        Point {
            grid: self.region.grid(),
            numbers: array::from_fn(|p| self.region.side(self.row.rates[p], is_high(corner, p))),
            named: self.row.rate_count,
        }
    }

    // Whether a test passes at every corner.
    pub(crate) fn passes_at_corners<F: Fn(u32) -> bool>(&self, test: F) -> bool
        requires { TakesBelow (F.pre test) (2 ^ self.now.row.rate_count) }
        ensures { (ok : ℕ → Bool) → AnswersBelow (F.post test) (2 ^ self.now.row.rate_count) ok → result ≡ passes ok (2 ^ named (row_of self.now.row)) }
    {
        lowest(1 << self.row.rate_count, test).is_none()
    }

    // The unit of the row's values.
    pub(crate) fn scale(&self) -> u64
        ensures power { result ≡ scale self.now.unit self.now.region.now.grid (row_of self.now.row) }
        ensures few { result ≤ 2 ^ 40 }
    {
        self.unit as u64 * (self.region.grid() as u64).pow(self.row.rate_count as u32)
    }
}
