// The answers and the sheet of a map, written into a buffer. The sheet is a line for each box, and a last line with the
// volumes.

#![tactic(auto)]

ghost use Rattle.std.specs.Prelude.{◌≡◌, ◌≤◌, true, length, is_ok};
ghost use Rattle.sheet.specs.Sheet.{box_line, answer_line, sheet_bytes, longest_line, longest_sheet};
ghost use Rattle.sheet.specs.Wrote.{Written};

mod line;
mod lines;

use chain::refusal::Refusal;
use line::{AnswerLine, BoxLine};
use lines::Lines;
use sink::{Encode, write};
use theory::record::{Answer, BoxRecord, Volumes};

// Writes all at the start of a buffer, and gives its length.
fn written<E: Encode>(value: &E, buffer: &mut [u8]) -> Result<usize, Refusal>
    ensures written { Written result buffer.old buffer.new (E.bytes value.now) }
    ensures enough { E.most value.now ≤ length buffer.old → is_ok result ≡ true }
{
    write(value, buffer).map_err(|_| Refusal::ShortBuffer)
}

// Writes the line of one box at the start of a buffer, and gives its length.
pub fn write_box(
    number: u32,
    rates: u32,
    record: &BoxRecord,
    buffer: &mut [u8],
) -> Result<usize, Refusal>
    ensures { Written result buffer.old buffer.new (box_line number rates «record».now) }
{
    let line = BoxLine {
        number: number as u64,
        rates,
        shown: record,
    };
    written(&line, buffer)
}

// Writes the line of an answer at the start of a buffer, and gives its length. Where the answer is a box, the line has
// the number of the box, and low and high of so many rates. 238 bytes are always enough.
pub fn write_answer(
    number: u32,
    rates: u32,
    answer: &Answer,
    buffer: &mut [u8],
) -> Result<usize, Refusal>
    ensures written { Written result buffer.old buffer.new (answer_line number rates answer.now) }
    ensures enough { longest_line ≤ length buffer.old → is_ok result ≡ true }
{
    let line = AnswerLine {
        number: number as u64,
        rates,
        answer,
    };
    written(&line, buffer)
}

// Writes the sheet at the start of a buffer, and gives its length. 238 bytes for each box and 63 more are always enough.
pub fn write_sheet(
    rates: u32,
    boxes: &[BoxRecord],
    volumes: &Volumes,
    buffer: &mut [u8],
) -> Result<usize, Refusal>
    ensures written { Written result buffer.old buffer.new (sheet_bytes rates boxes.now volumes.now) }
    ensures enough { longest_sheet (length boxes.now) ≤ length buffer.old → is_ok result ≡ true }
{
    let lines = Lines {
        rates,
        boxes,
        volumes,
    };
    written(&lines, buffer)
}

#[cfg(test)]
mod tests;
