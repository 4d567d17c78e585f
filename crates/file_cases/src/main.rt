// Shows what opening says of damaged files: chain D's file, cut off at each length and with each byte changed to each
// value. Then files are written, opened and written again.

#![tactic(auto)]

ghost use Rattle.std.specs.Prelude.{◌<◌, ◌≤◌, length};

use anyhow::anyhow;
use chain::interface::Chain;
use chain::record::NO_ROW;
use chain::refusal::Refusal;
use chain_file::stored::StoredChain;
use chain_writer::write_chain;
use pass_line::line::PassLine;
use std::alloc::{AllocError, Global};
use std::{fmt, fs};

// Where chain D's file tells the length of its rows, and where they stand.
const ROWS_LENGTH: usize = 40;

const ROWS: usize = 71;

// What opening says. A refusal at the end of the file is told as such, since the end moves from cut to cut.
#[derive(Clone, Copy, Debug, PartialEq, Eq)]
enum Answer {
    Opens,
    AtEnd(u8),
    Refused(Refusal),
}

impl From<Result<(), Refusal>> for Answer {
    fn from(opened: Result<(), Refusal>) -> Answer {
        match opened {
            Ok(()) => Answer::Opens,
            Err(refusal) => Answer::Refused(refusal),
        }
    }
}

impl fmt::Display for Answer {
    fn fmt<W: fmt::Write>(&self, f: &mut fmt::Formatter<W>) -> fmt::Result {
        match self {
            Answer::Opens => write!(f, "opens"),
            Answer::AtEnd(number) => write!(f, "refused {number} at the end"),
            Answer::Refused(refusal) => write!(f, "{refusal}"),
        }
    }
}

fn open_new(bytes: &[u8]) -> Answer {
    let mut chain = StoredChain::new();
    chain.open(bytes).into()
}

fn open_cut(bytes: &[u8]) -> Answer {
    match open_new(bytes) {
        Answer::Refused(refusal) if refusal.place() as usize == bytes.len() => {
            Answer::AtEnd(refusal.number())
        }
        answer => answer,
    }
}

// The answers to the file cut off after 0 bytes, 1 byte and so on.
fn cuts(heap: Global, bytes: &[u8]) -> Result<Vec<Answer>, AllocError> {
    let mut answers = Vec::new(heap);
    for length in 0..=bytes.len() {
        answers.push(open_cut(&bytes[..length]))?;
    }
    Ok(answers)
}

// The answers to the values 0 to 255 of a byte, which keeps its own value in the end.
fn changes(heap: Global, bytes: &mut [u8], place: usize) -> Result<Vec<Answer>, AllocError>
    requires { place < length bytes.old }
{
    let own = bytes[place];
    let mut answers = Vec::new(heap);
    for value in 0..=255u8 {
        bytes[place] = value;
        answers.push(open_new(bytes))?;
    }
    bytes[place] = own;
    Ok(answers)
}

// Opens the file with its rows cut off at `end`, and their length told to fit.
fn open_rows_cut(bytes: &mut [u8], end: usize) -> Answer
    requires { (71 ≤ end) × ((end ≤ length bytes.old) × (end ≤ 326)) }
{
    bytes[ROWS_LENGTH] = (end - ROWS) as u8;
    open_cut(&bytes[0..end])
}

// The answers to the rows cut off after 0 bytes, 1 byte and so on; last come all of them, so the bytes end as they were.
fn row_cuts(heap: Global, bytes: &mut [u8]) -> Result<Vec<Answer>, AllocError>
    requires { (71 ≤ length bytes.old) × (length bytes.old ≤ 326) }
{
    let mut answers = Vec::new(heap);
    for end in ROWS..=bytes.len() {
        answers.push(open_rows_cut(bytes, end))?;
    }
    Ok(answers)
}

// Moves the end of a section's body, and the begin of the next body with it.
fn move_end(bytes: &mut [u8], section: usize, by: u8)
    requires { (section < 3) × (44 ≤ length bytes.old) }
{
    let entry = 4 + 10 * section;
    bytes[entry + 6] = bytes[entry + 6].wrapping_add(by);
    bytes[entry + 12] = bytes[entry + 12].wrapping_add(by);
    bytes[entry + 16] = bytes[entry + 16].wrapping_sub(by);
}

// The answers to a body that is one byte longer: each of the first three takes the byte from the next, and the last
// gets it at the end of the file.
fn moved_ends(heap: Global, bytes: &mut [u8]) -> Result<Vec<Answer>, AllocError>
    requires { 71 ≤ length bytes.old }
{
    let mut answers = Vec::new(heap);
    for section in 0..3 {
        move_end(bytes, section, 1);
        answers.push(open_new(bytes))?;
        move_end(bytes, section, 255);
    }
    let mut longer = Vec::new(heap);
    longer.extend_from_slice(bytes)?;
    longer.push(0)?;
    if let Some(size) = longer.get_mut(ROWS_LENGTH) {
        *size = size.wrapping_add(1);
    }
    answers.push(open_new(&longer))?;
    Ok(answers)
}

// Each run of equal answers, with the numbers that get it, counted from 0.
fn print_runs(rt: &HostRuntime, answers: &[Answer]) -> anyhow::Result<()> {
    let mut first = 0;
    for (last, answer) in answers.iter().enumerate() {
        if answers.get(last + 1) == Some(answer) {
            continue;
        }
        if first > 0 {
            print!(rt; ", ")?;
        }
        if first < last {
            print!(rt; "{first} to ")?;
        }
        print!(rt; "{last} {answer}")?;
        first = last + 1;
    }
    println!(rt; "")?;
    Ok(())
}

fn print_damaged(rt: &HostRuntime, bytes: &mut [u8]) -> anyhow::Result<()>
    requires { (71 ≤ length bytes.old) × (length bytes.old ≤ 326) }
{
    print!(rt; "cut: ")?;
    print_runs(rt, &cuts(rt.alloc(), bytes)?)?;
    print!(rt; "rows cut: ")?;
    print_runs(rt, &row_cuts(rt.alloc(), bytes)?)?;
    print!(rt; "end moved: ")?;
    print_runs(rt, &moved_ends(rt.alloc(), bytes)?)?;
    for place in 0..bytes.len() {
        print!(rt; "byte {place}: ")?;
        print_runs(rt, &changes(rt.alloc(), bytes, place)?)?;
    }
    Ok(())
}

fn print_numbers<C: Chain>(rt: &HostRuntime, chain: &C) -> anyhow::Result<()> {
    println!(rt;
        "states {}, rates {}, unit {}, start {}",
        chain.states(),
        chain.rates(),
        chain.unit(),
        chain.start()
    )?;
    Ok(())
}

// Bytes in rows of 16.
fn print_bytes(rt: &HostRuntime, bytes: &[u8]) -> anyhow::Result<()> {
    for row in bytes.chunks(16) {
        for byte in row {
            print!(rt; " {byte:02x}")?;
        }
        println!(rt; "")?;
    }
    Ok(())
}

// The file of a chain, and whether the same bytes come back when it is opened and written again.
fn print_file<C: Chain>(rt: &HostRuntime, chain: &C) -> anyhow::Result<()> {
    print_numbers(rt, chain)?;
    let mut buffer = vec![in rt.alloc(); 0u8; 4096]?;
    let Ok(length) = write_chain(chain, &mut buffer) else {
        return Err(anyhow!("no room for the file"));
    };
    let Some(file) = buffer.get(0..length) else {
        return Err(anyhow!("no room for the file"));
    };
    println!(rt; "{length} bytes")?;
    print_bytes(rt, file)?;
    let mut stored = StoredChain::new();
    println!(rt; "{}", Answer::from(stored.open(file)))?;
    print_written(rt, &stored, file)
}

// Whether a stored chain writes these bytes.
fn print_written(rt: &HostRuntime, stored: &StoredChain, bytes: &[u8]) -> anyhow::Result<()> {
    let mut buffer = vec![in rt.alloc(); 0u8; 4096]?;
    let Ok(length) = stored.write(&mut buffer) else {
        return Err(anyhow!("no room for the file"));
    };
    if buffer.get(0..length) == Some(bytes) {
        println!(rt; "written again: same bytes")?;
    } else {
        println!(rt; "written again: other bytes")?;
    }
    Ok(())
}

// What a stored chain says of a state that it does not have; the record keeps row 0.
fn print_beyond(rt: &HostRuntime, stored: &StoredChain, state: u32) -> anyhow::Result<()> {
    match stored.mark(state) {
        Ok(mark) => println!(rt; "mark {state}: {mark}")?,
        Err(refusal) => println!(rt; "mark {state}: {refusal}")?,
    }
    let mut row = NO_ROW;
    let _ = stored.row(0, &mut row);
    match stored.row(state, &mut row) {
        Ok(()) => print!(rt; "row {state}: ")?,
        Err(refusal) => print!(rt; "row {state}: {refusal}, the record keeps ")?,
    }
    println!(rt; "rates {}, edges {}", row.rate_count, row.edge_count)?;
    Ok(())
}

// Opens chain D's file and then one that is damaged in its first row.
fn print_kept(rt: &HostRuntime, bytes: &[u8], damaged: &[u8]) -> anyhow::Result<()> {
    let mut stored = StoredChain::new();
    println!(rt; "{}", Answer::from(stored.open(bytes)))?;
    println!(rt; "then {}", Answer::from(stored.open(damaged)))?;
    print_numbers(rt, &stored)?;
    print_written(rt, &stored, bytes)?;
    print_beyond(rt, &stored, 4)
}

fn main(rt: HostRuntime) -> anyhow::Result<()> {
    let mut file = fs::read(&rt, "chain_d.chn")?;
    if file.len() != 113 {
        return Err(anyhow!("chain_d.chn is not chain D's file"));
    }
    print_damaged(&rt, &mut file)?;
    println!(rt; "a new stored chain")?;
    print_file(&rt, &StoredChain::new())?;
    println!(rt; "a pass line of 2 passes and 1 repeat")?;
    let mut line = PassLine::new();
    let _ = line.set(2, 1);
    print_file(&rt, &line)?;
    println!(rt; "chain D, then a damaged file")?;
    let mut damaged = file.clone()?;
    if let Some(byte) = damaged.get_mut(78) {
        *byte = 2;
    }
    print_kept(&rt, &file, &damaged)
}
