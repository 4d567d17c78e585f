ghost use Rattle.pass_line.specs.Line.{Fit};

pub mod answers;
mod rows;
mod setup;

// A line of passes, each tried once and then repeated up to `repeats` times.
#[derive(Clone, Copy)]
pub struct PassLine {
    passes: u32,
    repeats: u32,
    ghost fit: { Fit passes repeats },
}
