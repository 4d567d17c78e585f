ghost use Rattle.std.specs.Prelude.{◌≡◌, ◌<◌, ◌≤◌};
ghost use Rattle.chain.specs.Filled.{filled};
ghost use Rattle.pass_line.specs.Line.{tries, next_pass, repeatable, final, try_row};

use crate::line::PassLine;
use chain::record::{EdgeRecord, NO_EDGE, RowRecord};

// The rate of a try that jams.
const JAM: u8 = 0;

// The rate of a remake, after a jam, that is late.
const LATE_REMAKE: u8 = 1;

impl PassLine {
    // The number of tries: the states before the two ends.
    pub(super) fn tries(&self) -> u32
        ensures value { result ≡ tries self.now.passes self.now.repeats }
        ensures bound { result ≤ 2048 }
    {
        self.passes * (self.repeats + 1)
    }

    // The first try of the pass after that of a try, or the good end.
    fn next_pass(&self, state: u32) -> u32
        requires { state < 2048 }
        ensures { result ≡ next_pass self.now.repeats state }
    {
        let per_pass = self.repeats + 1;
        (state / per_pass + 1) * per_pass
    }

    // The row of a try.
    pub(super) fn try_row(&self, state: u32) -> RowRecord
        requires { state < tries self.now.passes self.now.repeats }
        ensures { result ≡ filled (try_row self.now.passes self.now.repeats state) }
    {
        let late = self.tries() + 1;
        let onward = self.next_pass(state);
        if state % (self.repeats + 1) < self.repeats {
            repeatable_row(state + 1, onward, late)
        } else {
            final_row(onward, late)
        }
    }
}

// The row of a try that can be repeated, by the states that it leads to.
fn repeatable_row(again: u32, onward: u32, late: u32) -> RowRecord
    ensures { result ≡ filled (repeatable again onward late) }
{
    let again = EdgeRecord {
        successor: again,
        coefficients: [0, 1, 0, -1, 0, 0, 0, 0],
    };
    let onward = EdgeRecord {
        successor: onward,
        coefficients: [1, -1, 0, 0, 0, 0, 0, 0],
    };
    let late = EdgeRecord {
        successor: late,
        coefficients: [0, 0, 0, 1, 0, 0, 0, 0],
    };
    RowRecord {
        rate_count: 2,
        rates: [JAM, LATE_REMAKE, 0],
        edge_count: 3,
        edges: [
            again, onward, late, NO_EDGE, NO_EDGE, NO_EDGE, NO_EDGE, NO_EDGE,
        ],
    }
}

// The row of the last try of a pass.
fn final_row(onward: u32, late: u32) -> RowRecord
    ensures { result ≡ filled (final onward late) }
{
    let onward = EdgeRecord {
        successor: onward,
        coefficients: [1, -1, 0, 0, 0, 0, 0, 0],
    };
    let late = EdgeRecord {
        successor: late,
        coefficients: [0, 1, 0, 0, 0, 0, 0, 0],
    };
    RowRecord {
        rate_count: 1,
        rates: [JAM, 0, 0],
        edge_count: 2,
        edges: [
            onward, late, NO_EDGE, NO_EDGE, NO_EDGE, NO_EDGE, NO_EDGE, NO_EDGE,
        ],
    }
}
