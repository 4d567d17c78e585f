ghost use Rattle.std.specs.Prelude.{◌≡◌, ◌<◌, ◌≤◌, cond, ◌&&◌, Err, MatchResult, nat_le, nat_lt};
ghost use Rattle.theory.specs.Witness.{at};
ghost use Rattle.witness.specs.Regions.{region_answer, Laid};

use crate::lowest::lowest;
use crate::region::{Region, Sides};
use chain::refusal::Refusal;

fn side_ok(grid: u32, low: u32, high: u32) -> bool
    ensures { result ≡ (nat_lt low high && nat_le high grid) }
{
    low < high && high <= grid
}

impl Region {
    // A region, or a refusal of the grid (6) or of the sides or their count (7).
    pub fn new(grid: u32, rates: u32, low: Sides, high: Sides) -> Result<Region, Refusal>
        ensures { MatchResult result (Laid grid rates low high) (λ e. region_answer grid rates low high ≡ Err e) }
    {
        if !(1..=1000).contains(&grid) {
            return Err(Refusal::BadGrid);
        }
        if !(1..=4).contains(&rates) {
            return Err(Refusal::BadField);
        }
        let bad_side = lowest(rates, |r| side_ok(grid, low[r as usize], high[r as usize]));
        if bad_side.is_some() {
            return Err(Refusal::BadField);
        }
        Ok(Region {
            grid,
            rates,
            low,
            high,
        })
    }

    pub fn grid(&self) -> u32
        ensures { result ≡ self.now.grid }
    {
        self.grid
    }

    pub fn rates(&self) -> u32
        ensures { result ≡ self.now.rates }
    {
        self.rates
    }

    // The low or the high of a rate.
    pub(crate) fn side(&self, rate: u8, at_high: bool) -> u32
        requires { rate < self.now.rates }
        ensures number { result ≡ cond at_high (at self.now.high rate) (at self.now.low rate) }
        ensures few { result ≤ 1000 }
    {
        if at_high {
            self.high[rate as usize]
        } else {
            self.low[rate as usize]
        }
    }
}
