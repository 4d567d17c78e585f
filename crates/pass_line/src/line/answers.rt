ghost use Rattle.pass_line.specs.Line.{line};
ghost use Rattle.pass_line.specs.LineLaw.{line_lawful};

use crate::line::PassLine;
use chain::interface::Chain;
use chain::record::RowRecord;
use chain::refusal::Refusal;

// A jam, and a late remake.
const RATES: u32 = 2;

// Coefficients are whole chances.
const UNIT: u32 = 1;

// The first try of the first pass.
const START: u32 = 0;

impl Chain for PassLine {
    ghost meaning = { λ p. line p.passes p.repeats };

    ghost lawful = { λ p. line_lawful p.passes p.repeats p.fit };

    fn states(&self) -> u32 {
        self.tries() + 2
    }

    fn rates(&self) -> u32 {
        RATES
    }

    fn unit(&self) -> u32 {
        UNIT
    }

    fn start(&self) -> u32 {
        START
    }

    fn mark(&self, state: u32) -> Result<u8, Refusal> {
        let late = self.tries() + 1;
        if state > late {
            Err(Refusal::NoState)
        } else {
            Ok(u8::from(state == late))
        }
    }

    fn row(&self, state: u32, into: &mut RowRecord) -> Result<(), Refusal> {
        let tries = self.tries();
        if state >= tries + 2 {
            return Err(Refusal::NoState);
        }
        let row = if state < tries {
            self.try_row(state)
        } else {
            RowRecord::looping(state)
        };
        *into = row;
        Ok(())
    }
}
