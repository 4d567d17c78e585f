// Replays cases of the second implementation through the call that the program makes, and prints how many differ.

#![tactic(auto)]

ghost use Rattle.std.specs.Prelude.{◌+◌, ◌^◌, ◌<◌, length, IfSome};

use job::map_job;
use std::alloc::{AllocError, Global};
use std::fs;

// A case: a chain file, a script, and what is to be printed; and the cases behind it.
#[derive(Clone, Copy)]
struct Case<'a> {
    file: &'a [u8],
    script: &'a [u8],
    output: &'a [u8],
    rest: &'a [u8],
}

// How many cases there are, and how many of them print something else.
#[derive(Clone, Copy, Default)]
struct Tally {
    cases: u64,
    different: u64,
    left: usize,
}

// A length of 32 bits, low byte first.
fn length_of(bytes: [u8; 4]) -> usize
    ensures { result < 2 ^ 32 }
{
    u32::from_le_bytes(bytes) as usize
}

// The first case of the bytes: three lengths, and then as many bytes each.
fn first_case<'a>(bytes: &'a [u8]) -> Option<Case<'a>>
    ensures { IfSome result (λ c. length c.rest.now < length bytes.now) }
{
    let [a, b, c, d, e, f, g, h, i, j, k, l, bodies @ ..] = bytes else {
        return None;
    };
    let script = length_of([*a, *b, *c, *d]);
    let output = script + length_of([*e, *f, *g, *h]);
    let rest = output + length_of([*i, *j, *k, *l]);
    if bodies.len() < rest {
        return None;
    }
    Some(Case {
        file: &bodies[..script],
        script: &bodies[script..output],
        output: &bodies[output..rest],
        rest: &bodies[rest..],
    })
}

fn replay(heap: Global, bytes: &[u8]) -> Result<Tally, AllocError> {
    let mut tally = Tally::default();
    let mut rest = bytes;
    while let Some(case) = first_case(rest) {
        let output = map_job(heap, case.file, case.script)?;
        tally.cases = tally.cases.saturating_add(1);
        if output.as_slice() != case.output {
            tally.different = tally.different.saturating_add(1);
        }
        rest = case.rest;
    }
    tally.left = rest.len();
    Ok(tally)
}

fn main(rt: HostRuntime) -> anyhow::Result<()> {
    let bytes = fs::read(&rt, "cases")?;
    let tally = replay(rt.alloc(), &bytes)?;
    println!(rt;
        "{} cases, {} differ, {} bytes left",
        tally.cases, tally.different, tally.left
    )?;
    Ok(())
}
