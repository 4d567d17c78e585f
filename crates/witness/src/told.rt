// What a chain tells of a state that it has.
ghost use Rattle.std.specs.Prelude.{◌≡◌, ◌<◌};
ghost use Rattle.chain.specs.Chains.{bad};

use chain::interface::Chain;

// Whether a state is bad.
pub(crate) fn is_bad<C: Chain>(chain: &C, state: u32) -> bool
    requires { state < (C.meaning chain.now).states }
    ensures { result ≡ bad (C.meaning chain.now) state }
{
    let Ok(mark) = chain.mark(state) else {
        unreachable()
    };
    mark == 1
}
