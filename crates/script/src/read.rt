// A script read line by line, and the calls that it makes.
ghost use Rattle.std.specs.Prelude.{◌≡◌, ℕ, List, map as mapped, IfOk};
ghost use Rattle.rate_map.specs.Told.{command};
ghost use Rattle.script.specs.Grammar.{ScriptSays};
ghost use Rattle.script.specs.Reading.{script_said, commands, closes};
ghost use Rattle.script.specs.Values.{said_by, without_break, LineRead};

use crate::line::{Line, Script, Step};
use crate::numbers::read_numbers;
use rate_map::call::Call;
use std::alloc::{AllocError, Global};

// A line without the byte 10 that ends it.
fn without_break<'a>(line: &'a [u8]) -> &'a [u8]
    ensures { result.now ≡ without_break line.now }
{
    line.strip_suffix(b"\n").unwrap_or(line)
}

// Reads one line, and adds its numbers to those of the script.
fn read_line(text: &[u8], numbers: &mut Vec<u32>) -> Result<Line, AllocError>
    ensures { IfOk result (LineRead text.now numbers.old.items numbers.new.items) }
{
    let from = numbers.len();
    let letter = match text {
        [letter, rest @ ..] => read_numbers(rest, numbers)?.then_some(*letter),
        [] => None,
    };
    Ok(Line {
        letter,
        from,
        to: numbers.len(),
    })
}

// The calls of a script up to its end, and whether it comes to an end.
#[derive(Drop)]
pub struct Plan<'a> {
    pub calls: Vec<Call<'a>>,
    pub close: bool,
}

impl Script {
    // Reads a script of any bytes. What its lines then say is what the grammar says of them.
    pub fn read(heap: Global, bytes: &[u8]) -> Result<Script, AllocError>
        ensures says { IfOk result (λ s. (n : ℕ) → said_by n s ≡ script_said n bytes.now) }
        ensures grammar { IfOk result (λ s. (n : ℕ) → ScriptSays n bytes.now (said_by n s)) }
    {
        let mut lines = Vec::new(heap);
        let mut numbers = Vec::new(heap);
        for line in bytes.split_inclusive(|byte| *byte == b'\n') {
            lines.push(read_line(without_break(line), &mut numbers)?)?;
        }
        Ok(Script { lines, numbers })
    }

    // The calls that it makes on a map over a chain of so many states.
    pub fn plan<'a>(&'a self, heap: Global, states: u32) -> Result<Plan<'a>, AllocError>
        ensures { IfOk result (λ p. (mapped command p.calls.items ≡ commands (said_by states self.now)) × (p.close ≡ closes (said_by states self.now))) }
    {
        let mut calls = Vec::new(heap);
        for step in self.steps(states) {
            match step {
                Step::Bad => {}
                Step::End => return Ok(Plan { calls, close: true }),
                Step::Do(call) => calls.push(call)?,
            }
        }
        Ok(Plan {
            calls,
            close: false,
        })
    }
}
