ghost use Rattle.std.specs.Prelude.{◌≡◌, [], ◌∷◌, pos, negsuc, refl};
ghost use Rattle.std.proofs.Common.{⊎_elim, arith};
ghost use Rattle.std.proofs.lemmas.Int.{ints};
ghost use Rattle.std.proofs.lemmas.Bool.{cases_lt};

use crate::{file_length, write_chain};
use chain::interface::Chain;
use chain::record::{EdgeRecord, NO_EDGE, RowRecord};
use chain::refusal::Refusal;

// Two states with the same row: with the rate r, to 0 by the chance 1 - 0.3 r and to 1 by 0.3 r. State 1 is bad.
#[derive(Drop)]
struct Pair;

impl Chain for Pair {
    ghost meaning = { λ _. record {
      states = 2;
      rates = 1;
      unit = 10;
      start = 0;
      mark = λ s. s;
      row = λ _. record {
        rates = 0 ∷ [];
        edges = record { successor = 0; coefficients = pos 10 ∷ negsuc 2 ∷ [] } ∷ record { successor = 1; coefficients = pos 0 ∷ pos 3 ∷ [] } ∷ [];
      };
    } };

    ghost lawful = { λ _. record {
      states_some = omega arith;
      states_few = omega arith;
      rates_some = omega arith;
      rates_few = omega arith;
      unit_some = omega arith;
      unit_few = omega arith;
      starts = omega arith;
      marks = λ s h. omega arith;
      rows = λ s h. record {
        rates_few = omega arith;
        rates_rise = (omega arith, omega arith, tt);
        edges_some = omega arith;
        edges_few = omega arith;
        edges_rise = (omega arith, omega arith, (omega arith, omega arith, tt));
        edges_lawful = (record { many = refl; limits = ((omega (arith, ints), omega (arith, ints)), ((omega (arith, ints), omega (arith, ints)), tt)) }, (record { many = refl; limits = ((omega (arith, ints), omega (arith, ints)), ((omega (arith, ints), omega (arith, ints)), tt)) }, tt));
        sums = λ i l. ⊎_elim (λ below. let e : i ≡ 0 = omega arith in rw e refl) (λ above. let e : i ≡ 1 = omega arith in rw e refl) (cases_lt i 1);
      };
    } };

    fn states(&self) -> u32 {
        2
    }

    fn rates(&self) -> u32 {
        1
    }

    fn unit(&self) -> u32 {
        10
    }

    fn start(&self) -> u32 {
        0
    }

    fn mark(&self, state: u32) -> Result<u8, Refusal> {
        if state < 2 {
            Ok(state as u8)
        } else {
            Err(Refusal::NoState)
        }
    }

    fn row(&self, state: u32, into: &mut RowRecord) -> Result<(), Refusal> {
        if state >= 2 {
            return Err(Refusal::NoState);
        }
        let stay = EdgeRecord {
            successor: 0,
            coefficients: [10, -3, 0, 0, 0, 0, 0, 0],
        };
        let fall = EdgeRecord {
            successor: 1,
            coefficients: [0, 3, 0, 0, 0, 0, 0, 0],
        };
        *into = RowRecord {
            rate_count: 1,
            rates: [0, 0, 0],
            edge_count: 2,
            edges: [
                stay, fall, NO_EDGE, NO_EDGE, NO_EDGE, NO_EDGE, NO_EDGE, NO_EDGE,
            ],
        };
        Ok(())
    }
}

#[test]
fn writes_a_pair(rt: HostRuntime) {
    let mut buffer = [7; 92];
    assert_eq!(rt; file_length(&Pair), 91);
    assert_eq!(rt; write_chain(&Pair, &mut buffer).ok(), Some(91));
    assert_eq!(rt; buffer[52], 1, "the mark of state 1");
    assert_eq!(rt; buffer[57], 15, "the offset of its row");
    assert_eq!(rt; buffer[68], 253, "the coefficient -3, low byte");
    assert_eq!(rt; buffer[69], 255, "and high byte");
    assert_eq!(rt; buffer[91], 7, "what stood behind the file");
    assert!(rt; write_chain(&Pair, &mut buffer[0..90]).is_err());
}
