// The search for the lowest number at which a test fails.
ghost use Rattle.std.specs.Prelude.{◌≡◌, ℕ, Bool};
ghost use Rattle.theory.specs.Words.{lowest};
ghost use Rattle.witness.specs.Tests.{TakesBelow, AnswersBelow};

// The lowest number below n at which a test fails.
pub(crate) fn lowest<F: Fn(u32) -> bool>(n: u32, passes: F) -> Option<u32>
    requires { TakesBelow (F.pre passes) n }
    ensures { (ok : ℕ → Bool) → AnswersBelow (F.post passes) n ok → result ≡ lowest ok n }
{
    (0..n).find(
        |&k|
            requires { F.pre passes k }
        { !passes(k) },
    )
}
