// The script: bytes to calls.

#![tactic(auto)]

ghost use Rattle.script.specs.Reading.{ReadsTheGrammar};

pub mod line;
mod numbers;
pub mod read;
pub mod step;

// What is read of a script is what the grammar says of it, and the grammar says nothing else.
pub fn reads_the_grammar()
    ensures { ReadsTheGrammar }
{}
