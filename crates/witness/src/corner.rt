// The corners of a row, by number: bit p of the number is set where the row's rate number p is high.
ghost use Rattle.std.specs.Prelude.{◌≡◌, ℕ, ◌<◌, ◌≤◌, ◌==◌, length, unsigned_abs};
ghost use Rattle.theory.specs.Values.{bit, eval};
ghost use Rattle.theory.specs.Witness.{at};
ghost use Rattle.witness.specs.Rows.{entry, Small, room};

use crate::value::{value, widened};
use chain::record::{COEFFICIENTS, RATES};

// Whether the row's rate number p is high at a corner.
pub(crate) fn is_high(corner: u32, p: usize) -> bool
    requires { p ≤ 2 }
    ensures { result ≡ (bit p corner == 1) }
{
    corner >> p & 1 == 1
}

// The rates of a row at a corner, as numbers on a grid.
#[derive(Clone, Copy)]
pub(crate) struct Point {
    pub grid: u32,
    pub numbers: [u32; RATES],
    pub named: u8,
    ghost grid_few: { grid ≤ 1000 },
    ghost numbers_few: { (p : ℕ) → at numbers p ≤ 1000 },
    ghost numbers_long: { length numbers ≡ 3 },
    ghost named_few: { named ≤ 3 },
}

impl Point {
    // The value of an edge's coefficients.
    pub(crate) fn value(&self, coefficients: &[i16; COEFFICIENTS]) -> i64
        requires { Small 8000 coefficients.now }
        ensures worth { result ≡ eval self.now.grid (at self.now.numbers) self.now.named (entry coefficients.now) }
        ensures bound { unsigned_abs result ≤ room 0 }
    {
        let named = self.named as usize;
        let mut table = widened(coefficients);
        value(self.grid, &self.numbers[..named], &mut table[..1 << named])
    }
}
