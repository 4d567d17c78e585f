ghost use Rattle.std.specs.Prelude.{◌≡◌, ℕ, Ok, Err, Result};
ghost use Rattle.chain.specs.Chains.{Meaning};
ghost use Rattle.theory.specs.declared.verdict.Verdict.TheVariants.{Safe};
ghost use Rattle.theory.specs.Witness.{SafeWitness as SafeConditions, at};
ghost use Rattle.theory.specs.Answers.{safe_answer};
ghost use Rattle.theory.proofs.Taken.{safe_taken_exactly};
ghost use Rattle.witness.specs.Rights.{safe_right};

use crate::claim::{AtMost, number_at};
use crate::judge::{Witness, none_or, try_numbers};
use crate::region::Region;
use crate::rows::first_failing;
use chain::interface::Chain;
use chain::refusal::Refusal;
use theory::verdict::Verdict;

// Shows that the chance of a bad state keeps to the limit, for any number of steps: for each state v says, in millionths,
// what the chance from there is at most.
#[derive(Clone, Copy)]
pub struct SafeWitness<'a> {
    pub v: &'a [u32],
}

impl<'a> Witness for SafeWitness<'a> {
    ghost answer = { λ w c G b L. safe_answer c G b L w.v.now };

    ghost Conditions = { λ w c G b L. SafeConditions c G b L w.v.now };

    ghost verdict = { λ w c L. Safe (at w.v.now c.start) };

    ghost taken = { λ w c G b L. safe_taken_exactly c G L b w.v.now };

    ghost right = { λ w c G b L. safe_right c G b L w.v.now };

    // Refused with 7 where the region has not the chain's number of rates, then with 16 to 19 or 21.
    fn answer<C: Chain>(&self, chain: &C, region: &Region, limit: u32) -> Result<Verdict, Refusal> {
        let SafeWitness { v } = *self;
        try_numbers(chain, region, v, v)?;
        none_or(
            first_failing(chain, &AtMost { v }, region),
            Refusal::BadBound,
        )?;
        let bound = number_at(v, chain.start());
        if bound > limit {
            return Err(Refusal::BadStart);
        }
        Ok(Verdict::Safe { bound })
    }
}
