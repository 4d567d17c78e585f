ghost use Rattle.std.specs.Prelude.{◌≡◌, ◌<◌, ◌≤◌, MatchResult};
ghost use Rattle.chain.specs.Chains.{Meaning, Lawful};
ghost use Rattle.chain.specs.Filled.{filled};
ghost use Rattle.chain.specs.declared.refusal.Refusal.TheVariants.{NoState};

use crate::record::RowRecord;
use crate::refusal::Refusal;

// A job chain. An implementation says by `meaning` which chain it is, shows by `lawful` that this chain
// keeps every rule and limit, and answers each question from the meaning.
pub trait Chain {
    ghost meaning: { Self → Meaning };

    ghost lawful: { (c : Self) → Lawful (meaning c) };

    fn states(&self) -> u32
        ensures { result ≡ (meaning self.now).states };

    fn rates(&self) -> u32
        ensures { result ≡ (meaning self.now).rates };

    fn unit(&self) -> u32
        ensures { result ≡ (meaning self.now).unit };

    fn start(&self) -> u32
        ensures { result ≡ (meaning self.now).start };

    // The mark of a state: 1 where it is bad, else 0.
    fn mark(&self, state: u32) -> Result<u8, Refusal>
        ensures { MatchResult result (λ b. (state < (meaning self.now).states) × (b ≡ (meaning self.now).mark state)) (λ e. ((meaning self.now).states ≤ state) × (e ≡ NoState)) };

    // Fills the record with the row of a state, and with 0 where the row has nothing.
    fn row(&self, state: u32, into: &mut RowRecord) -> Result<(), Refusal>
        ensures { MatchResult result (λ _. (state < (meaning self.now).states) × (into.new ≡ filled ((meaning self.now).row state))) (λ e. ((meaning self.now).states ≤ state) × (e ≡ NoState) × (into.new ≡ into.old)) };
}
