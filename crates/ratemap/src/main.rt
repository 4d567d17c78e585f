// Maps the rates of a pass line: lays out a field, cuts it, judges its boxes, and prints each answer and the sheet.

#![tactic(auto)]

use anyhow::anyhow;
use chain::interface::Chain;
use pass_line::line::PassLine;
use rate_map::call::Call;
use rate_map::map::ClosedMap;
use rate_map::run::{Ended, Ran, run};
use sheet::write_box;
use std::io::Write;
use theory::record::{Answer, BoxRecord, Reply};

// A pass jams at 5 to 45 of 100, and a remake is late at 20 to 60 of 100.
const FIELD: [u32; 4] = [5, 45, 20, 60];

// Where a pass jams seldom, at 5 to 10: the numbers bound the chance of a late job from above.
const SELDOM: [u32; 11] = [
    176185, 177450, 209087, 121207, 122557, 156304, 62560, 64000, 100000, 0, 1000000,
];

// The same with one number too small by one.
const BROKEN: [u32; 11] = [
    176185, 177450, 209086, 121207, 122557, 156304, 62560, 64000, 100000, 0, 1000000,
];

// Where a pass jams often, at 30 to 45: the numbers bound the chance from below, and the rounds say how soon it is met.
const OFTEN: [u32; 11] = [
    250593, 283859, 422467, 174954, 211578, 364176, 91680, 132000, 300000, 0, 1000000,
];

const ROUNDS: [u32; 11] = [5, 5, 4, 4, 4, 3, 2, 2, 1, 0, 0];

fn print_answer(rt: &HostRuntime, call: &Call, rates: u32, answer: &Answer) -> anyhow::Result<()> {
    match answer {
        Ok(Reply::Done) => println!(rt; "ok")?,
        Ok(Reply::Count(n)) => println!(rt; "{n} boxes")?,
        Ok(Reply::Found(b)) => print_box(rt, call.box_asked(), rates, b)?,
        Ok(Reply::Measured(v)) => println!(rt;
            "safe {}, unsafe {}, open {}",
            v.safe, v.exceeding, v.pending
        )?,
        Err(refusal) => println!(rt; "{refusal}")?,
    }
    Ok(())
}

fn print_box(rt: &HostRuntime, number: u32, rates: u32, b: &BoxRecord) -> anyhow::Result<()> {
    let mut line = [0u8; 128];
    let Ok(length) = write_box(number, rates, b, &mut line) else {
        return Err(anyhow!("no room for a line"));
    };
    rt.stdout().write_all(&line[..length])?;
    Ok(())
}

fn print_sheet(rt: &HostRuntime, map: &ClosedMap<PassLine>) -> anyhow::Result<()> {
    let mut page = vec![in rt.alloc(); 0u8; 16384]?;
    let Ok(length) = map.sheet(&mut page) else {
        return Err(anyhow!("no room for the sheet"));
    };
    rt.stdout().write_all(&page[..length])?;
    Ok(())
}

fn main(rt: HostRuntime) -> anyhow::Result<()> {
    let mut line = PassLine::new();
    if line.set(3, 2).is_err() {
        return Err(anyhow!("the line's numbers are refused"));
    }
    println!(rt;
        "pass line: {} passes, {} repeats, {} states, {} rates",
        line.passes(),
        line.repeats(),
        line.states(),
        line.rates()
    )?;
    let rates = line.rates();
    let calls = [
        Call::LayOut {
            grid: 100,
            limit: 250_000,
            sides: &FIELD,
        },
        Call::Split {
            number: 0,
            rate: 0,
            place: 45,
        },
        Call::Split {
            number: 0,
            rate: 0,
            place: 10,
        },
        Call::Split {
            number: 1,
            rate: 0,
            place: 30,
        },
        Call::Safe {
            number: 0,
            v: &BROKEN,
        },
        Call::Safe {
            number: 0,
            v: &SELDOM,
        },
        Call::Unsafe {
            number: 2,
            v: &OFTEN,
            w: &ROUNDS,
        },
        Call::Safe {
            number: 2,
            v: &SELDOM,
        },
        Call::Count,
        Call::Find { number: 2 },
        Call::Measure,
    ];
    let Ok(Ran { map, answers }) = run(rt.alloc(), line, &calls, true) else {
        return Err(anyhow!("no memory for the answers"));
    };
    for (call, answer) in calls.iter().zip(&answers) {
        print_answer(&rt, call, rates, answer)?;
    }
    match map {
        Ended::Open(_) => Ok(()),
        Ended::Closed(map) => print_sheet(&rt, &map),
    }
}
