ghost use Rattle.std.specs.Prelude.{◌≡◌, ℕ, ◌+◌, ◌-◌, ◌*◌, ◌/◌, ◌<◌, Ok, Err, Result};
ghost use Rattle.chain.specs.Chains.{Meaning};
ghost use Rattle.theory.specs.declared.verdict.Verdict.TheVariants.{Unsafe};
ghost use Rattle.theory.specs.Witness.{UnsafeWitness as UnsafeConditions, at, step_number as step_number_of};
ghost use Rattle.theory.specs.Answers.{unsafe_answer};
ghost use Rattle.theory.proofs.Taken.{unsafe_taken_exactly};
ghost use Rattle.witness.specs.Rights.{unsafe_right};

use crate::claim::{AtLeast, Steps, number_at};
use crate::judge::{Witness, none_or, try_numbers};
use crate::region::Region;
use crate::rows::first_failing;
use chain::interface::Chain;
use chain::refusal::Refusal;
use theory::verdict::Verdict;

// Shows that the chance of a bad state exceeds the limit within a number of steps: for each state v says, in millionths,
// what the chance from there is at least, and w a number of rounds.
#[derive(Clone, Copy)]
pub struct UnsafeWitness<'a> {
    pub v: &'a [u32],
    pub w: &'a [u32],
}

// Within how many steps the limit is exceeded.
fn step_number(bound: u32, limit: u32, rounds: u32) -> u64
    requires { limit < bound }
    ensures { result ≡ 1000000 * rounds / (bound - limit) + 1 }
{
    1_000_000 * rounds as u64 / (bound - limit) as u64 + 1
}

impl<'a> Witness for UnsafeWitness<'a> {
    ghost answer = { λ u c G b L. unsafe_answer c G b L u.v.now u.w.now };

    ghost Conditions = { λ u c G b L. UnsafeConditions c G b L u.v.now u.w.now };

    ghost verdict = { λ u c L. Unsafe (at u.v.now c.start) (step_number_of c L u.v.now u.w.now) };

    ghost taken = { λ u c G b L. unsafe_taken_exactly c G L b u.v.now u.w.now };

    ghost right = { λ u c G b L. unsafe_right c G b L u.v.now u.w.now };

    // Refused as a safe witness is, with 20 after 19.
    fn answer<C: Chain>(&self, chain: &C, region: &Region, limit: u32) -> Result<Verdict, Refusal> {
        let UnsafeWitness { v, w } = *self;
        try_numbers(chain, region, v, w)?;
        none_or(
            first_failing(chain, &AtLeast { v }, region),
            Refusal::BadBound,
        )?;
        none_or(
            first_failing(chain, &Steps { v, w }, region),
            Refusal::BadSteps,
        )?;
        let bound = number_at(v, chain.start());
        if bound <= limit {
            return Err(Refusal::BadStart);
        }
        let steps = step_number(bound, limit, number_at(w, chain.start()));
        Ok(Verdict::Unsafe { bound, steps })
    }
}
