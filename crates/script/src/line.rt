// A script as it was read, and what its lines say.
ghost use Rattle.std.specs.Prelude.{◌≡◌, List, length, slice_index_or};
ghost use Rattle.script.specs.Grammar.{bad};
ghost use Rattle.script.specs.Values.{step_said, said_in, line_count, said_by};

use crate::step::say;
use rate_map::call::Call;

// A line: its letter, and where its numbers stand among those of the script. None is a line that has no letter, or whose
// numbers have not the form of numbers.
#[derive(Clone, Copy)]
pub(crate) struct Line {
    pub(crate) letter: Option<u8>,
    pub(crate) from: usize,
    pub(crate) to: usize,
}

// The lines of a script, and the numbers of all lines.
#[derive(Drop)]
pub struct Script {
    pub(crate) lines: Vec<Line>,
    pub(crate) numbers: Vec<u32>,
}

// What a line says: a call, the end, or neither.
#[derive(Clone, Copy)]
pub enum Step<'a> {
    Bad,
    End,
    Do(Call<'a>),
}

// What the lines of a script say in turn, of a map over a chain of so many states.
#[derive(Drop)]
pub struct Steps<'a> {
    lines: &'a [Line],
    numbers: &'a [u32],
    states: u32,
}

// What a line says whose numbers stand among these.
fn say_line<'a>(line: Line, numbers: &'a [u32], states: u32) -> Step<'a>
    ensures { step_said result ≡ said_in states numbers.now line }
{
    let Line { letter, from, to } = line;
    match letter {
        Some(letter) if from <= to && to <= numbers.len() => {
            say(char::from(letter), &numbers[from..to], states)
        }
        _ => Step::Bad,
    }
}

impl<'a> Iterator for Steps<'a> {
    ghost use Rattle.std.specs.Iterator.{YieldsFirstBy, item_count};
    ghost use Rattle.script.specs.Values.{step_said, steps_left};

    type Item = Step<'a>;

    ghost next_gives = { YieldsFirstBy step_said steps_left };

    ghost remaining = { item_count steps_left };

    fn next(&mut self) -> Option<Step<'a>> {
        let (line, rest) = self.lines.split_first()?;
        self.lines = rest;
        Some(say_line(*line, self.numbers, self.states))
    }
}

impl Script {
    ghost use Rattle.script.specs.Values.{steps_left};

    // How many lines it has.
    pub fn len(&self) -> usize
        ensures { result ≡ line_count self.now }
    {
        self.lines.len()
    }

    // What a line says of a map over a chain of so many states. A line that is not there says nothing.
    pub fn step<'a>(&'a self, number: usize, states: u32) -> Step<'a>
        ensures { step_said result ≡ slice_index_or (said_by states self.now) number bad }
    {
        match self.lines.get(number) {
            Some(line) => say_line(*line, &self.numbers, states),
            None => Step::Bad,
        }
    }

    // What its lines say in turn, of a map over a chain of so many states.
    pub fn steps<'a>(&'a self, states: u32) -> Steps<'a>
        ensures { steps_left result ≡ said_by states self.now }
    {
        Steps {
            lines: &self.lines,
            numbers: &self.numbers,
            states,
        }
    }
}
