// What a letter and numbers say.
ghost use Rattle.std.specs.Prelude.{◌≡◌, ℕ};
ghost use Rattle.script.specs.Reading.{said, laid, cuts, safes, unsafes, asks, ends};
ghost use Rattle.script.specs.Values.{step_said};

use crate::line::Step;
use rate_map::call::Call;

fn say_lay_out<'a>(numbers: &'a [u32]) -> Step<'a>
    ensures { step_said result ≡ laid numbers.now }
{
    match numbers {
        [grid, limit, sides @ ..] => Step::Do(Call::LayOut {
            grid: *grid,
            limit: *limit,
            sides,
        }),
        _ => Step::Bad,
    }
}

fn say_split<'a>(numbers: &'a [u32]) -> Step<'a>
    ensures { step_said result ≡ cuts numbers.now }
{
    match numbers {
        [number, rate, place] => Step::Do(Call::Split {
            number: *number,
            rate: *rate,
            place: *place,
        }),
        _ => Step::Bad,
    }
}

fn say_safe<'a>(numbers: &'a [u32]) -> Step<'a>
    ensures { step_said result ≡ safes numbers.now }
{
    match numbers {
        [number, v @ ..] => Step::Do(Call::Safe { number: *number, v }),
        _ => Step::Bad,
    }
}

// The first numbers behind the box, one for each state, are v, and the rest is w.
fn say_unsafe<'a>(numbers: &'a [u32], states: u32) -> Step<'a>
    ensures { step_said result ≡ unsafes states numbers.now }
{
    match numbers {
        [number, both @ ..] => {
            let (v, w) = both.split_at((states as usize).min(both.len()));
            Step::Do(Call::Unsafe {
                number: *number,
                v,
                w,
            })
        }
        _ => Step::Bad,
    }
}

fn say_find<'a>(numbers: &'a [u32]) -> Step<'a>
    ensures { step_said result ≡ asks numbers.now }
{
    match numbers {
        [number] => Step::Do(Call::Find { number: *number }),
        _ => Step::Bad,
    }
}

fn say_end<'a>(numbers: &'a [u32]) -> Step<'a>
    ensures { step_said result ≡ ends numbers.now }
{
    match numbers {
        [] => Step::End,
        _ => Step::Bad,
    }
}

// What a line of this letter and these numbers says of a map over a chain of so many states.
pub fn say<'a>(letter: char, numbers: &'a [u32], states: u32) -> Step<'a>
    ensures { step_said result ≡ said states letter numbers.now }
{
    match letter {
        'L' => say_lay_out(numbers),
        'C' => say_split(numbers),
        'S' => say_safe(numbers),
        'U' => say_unsafe(numbers, states),
        'Q' => say_find(numbers),
        'E' => say_end(numbers),
        _ => Step::Bad,
    }
}
