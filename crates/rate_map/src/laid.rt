// Boxes as lay out is given them: low, high, low, high .. in one list.
ghost use Rattle.std.specs.Prelude.{◌≡◌, ℕ, ◌+◌, ◌*◌, ◌<◌, ◌≤◌, ◌&&◌, nat_lt};
ghost use Rattle.theory.specs.Maps.{side_at, laid_box, is_open};
ghost use Rattle.theory.specs.Witness.{at};

use std::array;
use theory::record::BoxRecord;
use theory::verdict::Verdict;

// A side of a box, low (0) or high (1); 0 where there is no such rate.
fn side_at(rates: u32, sides: &[u32], which: u32, r: usize) -> u32
    ensures { result ≡ side_at rates sides.now which r }
{
    if r < rates as usize {
        sides.get(2 * r + which as usize).copied().unwrap_or(0)
    } else {
        0
    }
}

// The open box with these sides.
pub(crate) fn laid_box(rates: u32, sides: &[u32]) -> BoxRecord
    ensures { result ≡ laid_box rates sides.now }
{
    BoxRecord {
        low: array::from_fn(|r| side_at(rates, sides, 0, r)),
        high: array::from_fn(|r| side_at(rates, sides, 1, r)),
        verdict: Verdict::Open,
    }
}

pub(crate) fn is_open(verdict: Verdict) -> bool
    ensures { result ≡ is_open verdict }
{
    matches!(verdict, Verdict::Open)
}

// Whether a box can be cut at a place of a rate.
pub(crate) fn can_cut(rates: u32, b: &BoxRecord, rate: u32, place: u32) -> bool
    requires { rates ≤ 4 }
    ensures { result ≡ (nat_lt rate rates && (nat_lt (at b.now.low rate) place && nat_lt place (at b.now.high rate))) }
{
    rate < rates && (b.low[rate as usize] < place && place < b.high[rate as usize])
}
