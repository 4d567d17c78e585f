// The judgement of a witness for a region of rates: taken exactly when its conditions hold at every corner.
ghost use Rattle.std.specs.Prelude.{◌≡◌, ℕ, ◌↔◌, Some, None, Ok, Err, Result, IsOk, MatchResult};
ghost use Rattle.chain.specs.Chains.{Meaning};
ghost use Rattle.chain.specs.declared.refusal.Refusal.{Refusal};
ghost use Rattle.theory.specs.declared.verdict.Verdict.{Verdict};
ghost use Rattle.theory.specs.Boxes.{Box};
ghost use Rattle.witness.specs.Regions.{box_of};
ghost use Rattle.witness.specs.Judged.{judged, tried, TakenExactly, Right, Shows};

pub mod exceeding;
pub mod safe;

use crate::chances::first_impossible;
use crate::numbers::first_bad_number;
use crate::region::Region;
use chain::interface::Chain;
use chain::refusal::Refusal;
use theory::verdict::Verdict;

// What a solver hands in for a region of rates. An implementation says by `answer` what the judgement of a box on a
// grid answers, for a limit in millionths, by `Conditions` when a witness is taken for it, and by `verdict` what it
// then gives the box. It shows by `taken` that a witness is taken exactly then, and by `right` that the verdict holds.
pub trait Witness {
    ghost answer: { Self → Meaning → ℕ → Box → ℕ → Result Verdict Refusal };

    ghost Conditions: { Self → Meaning → ℕ → Box → ℕ → Type 0 };

    ghost verdict: { Self → Meaning → ℕ → Verdict };

    // The first refusal, or the verdict.
    fn answer<C: Chain>(&self, chain: &C, region: &Region, limit: u32) -> Result<Verdict, Refusal>
        ensures { result ≡ judged (C.meaning chain.now) region.now (answer self.now (C.meaning chain.now) region.now.grid (box_of region.now) limit) };

    ghost taken: { (w : Self) (c : Meaning) (G : ℕ) (b : Box) (L : ℕ) → TakenExactly (answer w c G b L) (Conditions w c G b L) (verdict w c L) };

    ghost right: { (w : Self) (c : Meaning) (G : ℕ) (b : Box) (L : ℕ) → Shows c G b L (Conditions w c G b L) (verdict w c L) };

    // Judges the witness for a limit in millionths. It is refused with 7 where the region has not the chain's number
    // of rates, then with 16 to 21, and else taken with its verdict.
    final fn judge<C: Chain>(
        &self,
        chain: &C,
        region: &Region,
        limit: u32,
    ) -> Result<Verdict, Refusal>
        ensures answer { result ≡ judged (C.meaning chain.now) region.now (answer self.now (C.meaning chain.now) region.now.grid (box_of region.now) limit) }
        ensures exactly { IsOk result ↔ ((region.now.rates ≡ (C.meaning chain.now).rates) × Conditions self.now (C.meaning chain.now) region.now.grid (box_of region.now) limit) }
        ensures shows { IsOk result → Right (C.meaning chain.now) region.now.grid (box_of region.now) limit (verdict self.now (C.meaning chain.now) limit) }
    {
        self.answer(chain, region, limit)
    }
}

// A state at which a test failed, as a refusal.
pub(crate) fn none_or<F: Fn(u32) -> Refusal>(found: Option<u32>, refusal: F) -> Result<(), Refusal>
    requires { F.IsAlwaysCallable refusal }
    ensures { MatchResult result (λ _. found ≡ None) (λ e. (state : ℕ) × (found ≡ Some state) × F.post refusal state e) }
{
    found.map_or(Ok(()), |state| Err(refusal(state)))
}

// What is tried of every witness: the region's rates, the lengths, the numbers and the chances.
pub(crate) fn try_numbers<C: Chain>(
    chain: &C,
    region: &Region,
    v: &[u32],
    w: &[u32],
) -> Result<(), Refusal>
    ensures { result ≡ tried (C.meaning chain.now) region.now v.now w.now (Ok tt) }
{
    if region.rates() != chain.rates() {
        return Err(Refusal::BadField);
    }
    let states = chain.states() as usize;
    if v.len() != states || w.len() != states {
        return Err(Refusal::BadLength);
    }
    none_or(first_bad_number(chain, v, w), Refusal::BadNumber)?;
    none_or(first_impossible(chain, region), Refusal::BadChance)
}
