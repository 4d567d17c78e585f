// Reads a chain file, job.chn, and a script from standard input, runs the script on a map over the chain, and prints the
// answers and the sheet.

#![tactic(auto)]

use job::{MOST, map_job};
use std::fs;
use std::io::{ErrorKind, Read, Write};

// Reads no more than shows whether it is too long.
fn read_input<R: Read + Drop>(rt: &HostRuntime, from: R) -> anyhow::Result<Vec<u8>> {
    let mut bytes = Vec::new(rt.alloc());
    let mut limited = from.take(MOST as u64 + 1);
    limited.read_to_end(&mut bytes)?;
    Ok(bytes)
}

// A file that is not there counts as empty.
fn read_file(rt: &HostRuntime) -> anyhow::Result<Vec<u8>> {
    match fs::open(rt, "job.chn") {
        Ok(file) => read_input(rt, file),
        Err(e) => {
            if e.kind() == ErrorKind::NotFound {
                Ok(Vec::new(rt.alloc()))
            } else {
                Err(e.into())
            }
        }
    }
}

fn map_rates(rt: &HostRuntime) -> anyhow::Result<()> {
    let file = read_file(rt)?;
    let script = read_input(rt, rt.stdin())?;
    let output = map_job(rt.alloc(), &file, &script)?;
    let mut out = rt.stdout();
    out.write_all(&output)?;
    out.flush()?;
    Ok(())
}

fn main(rt: HostRuntime) -> anyhow::Result<()> {
    map_rates(&rt)
}
