// The lines of the output, added to bytes that grow.
ghost use Rattle.std.specs.Prelude.{◌≡◌, ℕ, ◌++◌, is_ok, if◌then◌else◌, OnOk};
ghost use Rattle.rate_map.specs.Values.{map_value};
ghost use Rattle.sheet.specs.Sheet.{answer_line};
ghost use Rattle.script.specs.Values.{said_by};
ghost use Rattle.job.specs.Output.{texts, sheet_of};

use chain::interface::Chain;
use chain::refusal::Refusal;
use rate_map::map::ClosedMap;
use script::line::{Script, Step};
use sheet::write_answer;
use std::alloc::{AllocError, Global};
use theory::record::Answer;

// The line of an answer.
pub(crate) fn report_answer(
    out: &mut Vec<u8>,
    number: u32,
    rates: u32,
    answer: &Answer,
) -> Result<(), AllocError>
    ensures { out.new.items ≡ (if is_ok result then out.old.items ++ answer_line number rates answer.now else out.old.items) }
{
    let mut line = [0u8; 238];
    match write_answer(number, rates, answer, &mut line) {
        Ok(length) => out.extend_from_slice(&line[0..length]),
        Err(_) => unreachable(),
    }
}

// A line for each line of a script, up to its end.
pub(crate) fn report_lines(
    out: &mut Vec<u8>,
    script: &Script,
    states: u32,
    rates: u32,
    answers: &[Answer],
) -> Result<(), AllocError>
    ensures { OnOk result (out.new.items ≡ out.old.items ++ texts rates (said_by states script.now) answers.now) }
{
    let mut answers = answers.iter();
    for step in script.steps(states) {
        match step {
            Step::Bad => report_answer(out, 0, rates, &Err(Refusal::BadLine))?,
            Step::End => return Ok(()),
            Step::Do(call) => {
                let Some(answer) = answers.next() else {
                    return Ok(());
                };
                report_answer(out, call.box_asked(), rates, answer)?;
            }
        }
    }
    Ok(())
}

// The sheet of a map. 30,527 bytes are enough for it.
pub(crate) fn report_sheet<C: Chain>(
    heap: Global,
    out: &mut Vec<u8>,
    map: &ClosedMap<C>,
) -> Result<(), AllocError>
    ensures { out.new.items ≡ (if is_ok result then out.old.items ++ sheet_of (C.meaning map.now.chain) (map_value map.now) else out.old.items) }
{
    let mut page = vec![in heap; 0u8; 30527]?;
    match map.sheet(&mut page) {
        Ok(length) => out.extend_from_slice(&page[0..length]),
        Err(_) => unreachable(),
    }
}
