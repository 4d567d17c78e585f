// The test of the numbers of a witness.
ghost use Rattle.std.specs.Prelude.{◌≡◌, ◌<◌, not, ◌&&◌, ◌||◌, ◌==◌, nat_le};
ghost use Rattle.theory.specs.Words.{lowest};
ghost use Rattle.theory.specs.Answers.{numbers_ok};

use crate::claim::number_at;
use crate::lowest::lowest;
use crate::told::is_bad;
use chain::interface::Chain;

// Numbers are at most a million, and the first of a bad state is exactly that.
fn numbers_ok(marked: bool, v: u32, w: u32) -> bool
    ensures { result ≡ ((nat_le v 1000000 && (not marked || v == 1000000)) && nat_le w 1000000) }
{
    v <= 1_000_000 && (!marked || v == 1_000_000) && w <= 1_000_000
}

// The lowest state with a number that no witness may give it.
pub(crate) fn first_bad_number<C: Chain>(chain: &C, v: &[u32], w: &[u32]) -> Option<u32>
    ensures { result ≡ lowest (numbers_ok (C.meaning chain.now) v.now w.now) (C.meaning chain.now).states }
{
    lowest(chain.states(), |state| {
        numbers_ok(
            is_bad(chain, state),
            number_at(v, state),
            number_at(w, state),
        )
    })
}
