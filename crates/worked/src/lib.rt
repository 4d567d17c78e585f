// Worked examples: small chains, and what the judgement of witnesses answers on them.

#![tactic(auto)]

ghost use Rattle.worked.specs.Examples.{Worked};

pub mod samples;
#[cfg(test)]
mod tests;

// What is judged of the samples, number by number.
pub fn worked_examples()
    ensures { Worked }
{}
