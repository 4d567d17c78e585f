// The value of a table of coefficients at grid numbers of its rates.
ghost use Rattle.std.specs.Prelude.{◌≡◌, ℕ, ◌+◌, ◌-◌, ◌*◌, ◌^◌, ◌<◌, ◌≤◌, length, ◌+ℤ◌, unsigned_abs};
ghost use Rattle.theory.specs.Words.{◌·◌};
ghost use Rattle.theory.specs.Values.{eval};
ghost use Rattle.theory.specs.Witness.{at};
ghost use Rattle.witness.specs.Rows.{entry, Small, room};

use chain::record::COEFFICIENTS;

fn times(n: u32, z: i64) -> i64
    requires n_few { n ≤ 1000 }
    requires z_small { unsigned_abs z ≤ 2 ^ 40 }
    ensures product { result ≡ n · z }
    ensures bound { unsigned_abs result ≤ 2 ^ 50 }
{
    n as i64 * z
}

// A rate as a number on a grid.
#[derive(Clone, Copy)]
struct Rate {
    grid: u32,
    number: u32,
    ghost grid_few: { grid ≤ 1000 },
    ghost number_few: { number ≤ 1000 },
}

impl Rate {
    // One entry of a table with the rate set: the coefficient without the rate, and the one with it.
    fn mixed(self, without: i64, with: i64) -> i64
        requires without_small { unsigned_abs without ≤ 2 ^ 40 }
        requires with_small { unsigned_abs with ≤ 2 ^ 40 }
        ensures { result ≡ self.grid · without +ℤ self.number · with }
    {
        times(self.grid, without) + times(self.number, with)
    }

    // Sets the rate, the last of a table: its low half takes in the high half.
    fn set_in(self, low: &mut [i64], high: &[i64])
        requires low_small { Small (2 ^ 40) low.old }
        requires high_small { Small (2 ^ 40) high.now }
        requires same { length low.old ≡ length high.now }
        ensures { (k : ℕ) → k < length low.old → entry low.new k ≡ self.grid · entry low.old k +ℤ self.number · entry high.now k }
    {
        for (k, without) in low.iter_mut().enumerate() {
            *without = self.mixed(*without, high[k]);
        }
    }
}

// The value of a table at a point: the last rate is set, and the table halves, at each call.
pub(crate) fn value(grid: u32, point: &[u32], table: &mut [i64]) -> i64
    requires grid_few { grid ≤ 1000 }
    requires point_few { (p : ℕ) → at point.now p ≤ 1000 }
    requires few { length point.now ≤ 3 }
    requires full { length table.old ≡ 2 ^ length point.now }
    requires small { Small (room (length point.now)) table.old }
    ensures worth { result ≡ eval grid (at point.now) (length point.now) (entry table.old) }
    ensures bound { unsigned_abs result ≤ room 0 }
{
    match point {
        [] => table[0],
        [only] => {
            let rate = Rate {
                grid,
                number: *only,
            };
            rate.mixed(table[0], table[1])
        }
        [rest @ .., last] => {
            let rate = Rate {
                grid,
                number: *last,
            };
            let half = table.len() / 2;
            let (low, high) = table.split_at_mut(half);
            rate.set_in(low, high);
            value(grid, rest, low)
        }
    }
}

// The coefficients, wide enough to be computed with.
pub(crate) fn widened(coefficients: &[i16; COEFFICIENTS]) -> [i64; COEFFICIENTS]
    ensures { result ≡ coefficients.now }
{
    coefficients.map(i64::from)
}
