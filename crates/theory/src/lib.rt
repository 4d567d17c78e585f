// Why a witness that is taken can be believed: each function has a theorem for its contract.

#![tactic(auto)]

ghost use Rattle.theory.specs.Theorems.{SumIsValue, CornersDecide, SafeIsSafe, UnsafeIsUnsafe, SafeTakenExactly, UnsafeTakenExactly};
ghost use Rattle.theory.specs.Runs.{RunsAreSound};

pub mod record;
pub mod verdict;

pub fn sum_is_value()
    ensures { SumIsValue }
{}

pub fn corners_decide()
    ensures { CornersDecide }
{}

pub fn safe_is_safe()
    ensures { SafeIsSafe }
{}

pub fn unsafe_is_unsafe()
    ensures { UnsafeIsUnsafe }
{}

pub fn safe_taken_exactly()
    ensures { SafeTakenExactly }
{}

pub fn unsafe_taken_exactly()
    ensures { UnsafeTakenExactly }
{}

pub fn runs_are_sound()
    ensures { RunsAreSound }
{}
