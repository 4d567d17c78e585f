ghost use Rattle.std.specs.Prelude.{◌≡◌};
ghost use Rattle.chain.specs.Filled.{filled};
ghost use Rattle.worked.specs.Samples.{relay_row, doubled_row, forked, meaning_of};
ghost use Rattle.worked.specs.SampleLaws.{samples_lawful};

use chain::interface::Chain;
use chain::record::{EdgeRecord, NO_EDGE, RowRecord};
use chain::refusal::Refusal;

// The chains of the worked examples.
#[derive(Clone, Copy)]
pub enum Sample {
    Relay,
    Single,
    Doubled,
}

// A row that names one rate and has two edges.
fn fork_row(rate: u8, first: EdgeRecord, second: EdgeRecord) -> RowRecord
    ensures { result ≡ forked rate first second }
{
    RowRecord {
        rate_count: 1,
        rates: [rate, 0, 0],
        edge_count: 2,
        edges: [
            first, second, NO_EDGE, NO_EDGE, NO_EDGE, NO_EDGE, NO_EDGE, NO_EDGE,
        ],
    }
}

// A row of the relay. A job hands on with its rate, and ends with what is left of 1.
fn relay_row(state: u32) -> RowRecord
    ensures { result ≡ filled (relay_row state) }
{
    match state {
        0 => {
            let hands_on = EdgeRecord {
                successor: 1,
                coefficients: [0, 1, 0, 0, 0, 0, 0, 0],
            };
            let ends = EdgeRecord {
                successor: 3,
                coefficients: [1, -1, 0, 0, 0, 0, 0, 0],
            };
            fork_row(0, hands_on, ends)
        }
        1 => {
            let hands_back = EdgeRecord {
                successor: 0,
                coefficients: [0, 1, 0, 0, 0, 0, 0, 0],
            };
            let fails = EdgeRecord {
                successor: 2,
                coefficients: [1, -1, 0, 0, 0, 0, 0, 0],
            };
            fork_row(1, hands_back, fails)
        }
        _ => RowRecord::looping(state),
    }
}

// A row of the doubled chain. State 0 is left with twice its rate.
fn doubled_row(state: u32) -> RowRecord
    ensures { result ≡ filled (doubled_row state) }
{
    match state {
        0 => {
            let stays = EdgeRecord {
                successor: 0,
                coefficients: [1, -2, 0, 0, 0, 0, 0, 0],
            };
            let leaves = EdgeRecord {
                successor: 1,
                coefficients: [0, 2, 0, 0, 0, 0, 0, 0],
            };
            fork_row(0, stays, leaves)
        }
        _ => RowRecord::looping(state),
    }
}

impl Chain for Sample {
    ghost meaning = { meaning_of };

    ghost lawful = { samples_lawful };

    fn states(&self) -> u32 {
        match self {
            Sample::Relay => 4,
            Sample::Single => 1,
            Sample::Doubled => 2,
        }
    }

    fn rates(&self) -> u32 {
        match self {
            Sample::Relay => 2,
            Sample::Single | Sample::Doubled => 1,
        }
    }

    fn unit(&self) -> u32 {
        match self {
            Sample::Relay | Sample::Single | Sample::Doubled => 1,
        }
    }

    fn start(&self) -> u32 {
        match self {
            Sample::Relay | Sample::Single | Sample::Doubled => 0,
        }
    }

    fn mark(&self, state: u32) -> Result<u8, Refusal> {
        if state >= self.states() {
            return Err(Refusal::NoState);
        }
        match self {
            Sample::Relay => Ok(u8::from(state == 2)),
            Sample::Single | Sample::Doubled => Ok(0),
        }
    }

    fn row(&self, state: u32, into: &mut RowRecord) -> Result<(), Refusal> {
        if state >= self.states() {
            return Err(Refusal::NoState);
        }
        *into = match self {
            Sample::Relay => relay_row(state),
            Sample::Single => RowRecord::looping(state),
            Sample::Doubled => doubled_row(state),
        };
        Ok(())
    }
}
