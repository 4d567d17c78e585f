// The claims that a witness makes of each row.
ghost use Rattle.std.specs.Prelude.{◌≡◌, ℕ, ◌<◌, not, ◌&&◌, nat_lt};
ghost use Rattle.theory.specs.Witness.{Said, at, at_most, at_least, steps};

// A claim says which states it tests, told whether the state is bad; what number it gives a state; what it
// adds each step at the state under test; and whether it compares by at most or by at least.
pub(crate) trait Claim {
    ghost said: { Self → Said };

    fn tests(&self, marked: bool, state: u32) -> bool
        ensures { result ≡ (said self.now).tests marked state };

    fn number(&self, state: u32) -> u32
        ensures { result ≡ (said self.now).number state };

    fn adds(&self, state: u32) -> u32
        ensures { result ≡ (said self.now).adds state };

    fn at_most(&self) -> bool
        ensures { result ≡ (said self.now).most };
}

// The number that a witness gives a state; 0 where it gives none.
pub(crate) fn number_at(v: &[u32], state: u32) -> u32
    ensures { result ≡ at v.now state }
{
    v.get(state as usize).copied().unwrap_or(0)
}

// Whether a state is not bad and has a number above 0.
fn is_counted(v: &[u32], marked: bool, state: u32) -> bool
    ensures { result ≡ (not marked && nat_lt 0 (at v.now state)) }
{
    !marked && 0 < number_at(v, state)
}

// The sum is at most the state's number, at every state that is not bad.
#[derive(Clone, Copy)]
pub(crate) struct AtMost<'a> {
    pub v: &'a [u32],
}

impl<'a> Claim for AtMost<'a> {
    ghost said = { λ c. at_most (at c.v.now) };

    fn tests(&self, marked: bool, _state: u32) -> bool {
        !marked
    }

    fn number(&self, state: u32) -> u32 {
        number_at(self.v, state)
    }

    fn adds(&self, _state: u32) -> u32 {
        0
    }

    fn at_most(&self) -> bool {
        true
    }
}

// The sum is at least the state's number, at every state that is not bad and has a number above 0.
#[derive(Clone, Copy)]
pub(crate) struct AtLeast<'a> {
    pub v: &'a [u32],
}

impl<'a> Claim for AtLeast<'a> {
    ghost said = { λ c. at_least (at c.v.now) };

    fn tests(&self, marked: bool, state: u32) -> bool {
        is_counted(self.v, marked, state)
    }

    fn number(&self, state: u32) -> u32 {
        number_at(self.v, state)
    }

    fn adds(&self, _state: u32) -> u32 {
        0
    }

    fn at_most(&self) -> bool {
        false
    }
}

// One more than the sum is at most the state's number of rounds, at the states that at least tests.
#[derive(Clone, Copy)]
pub(crate) struct Steps<'a> {
    pub v: &'a [u32],
    pub w: &'a [u32],
}

impl<'a> Claim for Steps<'a> {
    ghost said = { λ c. steps (at c.v.now) (at c.w.now) };

    fn tests(&self, marked: bool, state: u32) -> bool {
        is_counted(self.v, marked, state)
    }

    fn number(&self, state: u32) -> u32 {
        number_at(self.w, state)
    }

    fn adds(&self, _state: u32) -> u32 {
        1
    }

    fn at_most(&self) -> bool {
        true
    }
}
