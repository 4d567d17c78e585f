// A job: a chain file and a script in, what is printed out.

#![tactic(auto)]

ghost use Rattle.std.specs.Prelude.{◌≡◌, ◌↔◌, ℕ, [], ◌++◌, IsOk, IfOk, IfErr, if◌then◌else◌};
ghost use Rattle.chain_format.specs.Format.{chain_in};
ghost use Rattle.sheet.specs.Sheet.{refused_line};
ghost use Rattle.script.specs.Reading.{script_said};
ghost use Rattle.script.specs.Values.{said_by};
ghost use Rattle.rate_map.specs.Promise.{ended_value, chain_of, is_closed};
ghost use Rattle.job.specs.Output.{texts, sheet_of, map_output, job_output};
ghost use Rattle.job.specs.Promise.{Runs, Mapped};

mod report;

use chain::interface::Chain;
use chain::refusal::Refusal;
use chain_file::stored::StoredChain;
use rate_map::run::{Ended, Ran, run};
use report::{report_answer, report_lines, report_sheet};
use script::line::Script;
use std::alloc::{AllocError, Global};

// The most bytes of a chain file and of a script.
pub const MOST: usize = 65536;

// What is printed where nothing is run: the refusal alone.
fn refuse(heap: Global, refusal: Refusal) -> Result<Vec<u8>, AllocError>
    ensures { IfOk result (λ out. out.items ≡ refused_line refusal) }
{
    let mut out = Vec::new(heap);
    report_answer(&mut out, 0, 0, &Err(refusal))?;
    Ok(out)
}

// What is shown of a script that was run.
fn show<C: Chain>(
    heap: Global,
    script: &Script,
    states: u32,
    rates: u32,
    ran: &Ran<C>,
) -> Result<Vec<u8>, AllocError>
    ensures { IfOk result (λ out. out.items ≡ texts rates (said_by states script.now) ran.now.answers.items ++ (if is_closed ran.now.map then sheet_of (C.meaning (chain_of ran.now.map)) (ended_value ran.now.map) else [])) }
{
    let mut out = Vec::new(heap);
    report_lines(&mut out, script, states, rates, &ran.answers)?;
    match &ran.map {
        Ended::Open(_) => {}
        Ended::Closed(map) => report_sheet(heap, &mut out, map)?,
    }
    Ok(out)
}

// Runs a script on a map over a chain.
pub fn map_chain<C: Chain + Drop>(
    heap: Global,
    chain: C,
    bytes: &[u8],
) -> Result<Vec<u8>, AllocError>
    ensures output { IfOk result (λ out. out.items ≡ map_output (C.meaning chain) (script_said (C.meaning chain).states bytes.now)) }
    ensures promise { IfOk result (λ out. Mapped (C.meaning chain) bytes.now out.items) }
{
    let states = chain.states();
    let rates = chain.rates();
    let script = Script::read(heap, bytes)?;
    let plan = script.plan(heap, states)?;
    let ran = run(heap, chain, &plan.calls, plan.close)?;
    show(heap, &script, states, rates, &ran)
}

// The chain of a file, for a script that is not too long. The file is tried first.
fn open_job<'a>(file: &'a [u8], script: &[u8]) -> Result<StoredChain<'a>, Refusal>
    ensures runs { IsOk result ↔ Runs file.now script.now }
    ensures chain { IfOk result (λ chain. chain.bytes.now ≡ file.now) }
    ensures refused { IfErr result (λ e. refused_line e ≡ job_output file.now script.now) }
{
    if file.len() > MOST {
        return Err(Refusal::TooLong);
    }
    let mut chain = StoredChain::new();
    chain.open(file)?;
    if script.len() > MOST {
        return Err(Refusal::TooLong);
    }
    Ok(chain)
}

// Runs a script on a map over the chain of a file.
pub fn map_job(heap: Global, file: &[u8], script: &[u8]) -> Result<Vec<u8>, AllocError>
    ensures output { IfOk result (λ out. out.items ≡ job_output file.now script.now) }
    ensures promise { IfOk result (λ out. Runs file.now script.now → Mapped (chain_in file.now) script.now out.items) }
{
    match open_job(file, script) {
        Ok(chain) => map_chain(heap, chain, script),
        Err(refusal) => refuse(heap, refusal),
    }
}
