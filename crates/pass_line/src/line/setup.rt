ghost use Rattle.std.specs.Prelude.{◌≡◌, ◌↔◌, IsOk, IfErr, OnOk, OnErr};
ghost use Rattle.chain.specs.declared.refusal.Refusal.TheVariants.{BadPasses};
ghost use Rattle.pass_line.specs.Line.{Fit};

use crate::line::PassLine;
use chain::refusal::Refusal;

impl PassLine {
    // A line of one pass that is never repeated.
    pub fn new() -> PassLine
        ensures passes { result.passes ≡ 1 }
        ensures repeats { result.repeats ≡ 0 }
    {
        PassLine {
            passes: 1,
            repeats: 0,
        }
    }

    // Sets the passes, 1 to 64, and the repeats, 0 to 31. A pair out of range is refused, and the line stays as it was.
    pub fn set(&mut self, passes: u32, repeats: u32) -> Result<(), Refusal>
        ensures taken { IsOk result ↔ Fit passes repeats }
        ensures set { OnOk result ((self.new.passes ≡ passes) × (self.new.repeats ≡ repeats)) }
        ensures refused { IfErr result (λ e. e ≡ BadPasses) }
        ensures kept { OnErr result (self.new ≡ self.old) }
    {
        if passes < 1 || passes > 64 || repeats > 31 {
            return Err(Refusal::BadPasses);
        }
        *self = PassLine { passes, repeats };
        Ok(())
    }

    pub fn passes(&self) -> u32
        ensures { result ≡ self.now.passes }
    {
        self.passes
    }

    pub fn repeats(&self) -> u32
        ensures { result ≡ self.now.repeats }
    {
        self.repeats
    }
}
