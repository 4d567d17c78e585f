// Whether bytes are a chain's file. Body 1 stands at byte 44 and body 2 at 51; byte 10, 20, 30 or 40 is where the
// contents tell the length of body 1, 2, 3 or 4.
ghost use Rattle.std.specs.Prelude.{◌≡◌, ℕ, ◌+◌, ◌-◌, ◌*◌, ◌^◌, ◌<◌, ◌≤◌, List, length, OnOk, IfErr, IfSome, IfNone, ◌==◌, slice_index};
ghost use Rattle.chain.specs.declared.refusal.Refusal.TheVariants.{BadMark, BadRow};
ghost use Rattle.chain_format.specs.Reader.{part, value_at, got, refused};
ghost use Rattle.chain_format.specs.Format.{version1, row, rows, marks, rows_on, marks_on, opened, encode, chain_in, File};
ghost use Rattle.chain_format.proofs.Holds.{Told};
ghost use Rattle.chain_file.specs.Known.{numbers_of};
ghost use Rattle.chain_file.specs.Parts.{part_of, Shows};

use crate::contents::{Lengths, read_contents};
use crate::numbers::Numbers;
use crate::part::{Part, Section, value_at};
use crate::row::{power, read_row};
use crate::sums::tally;
use chain::refusal::Refusal;

// Whether the offset told at `place` leads from the begin of the rows to `at`.
fn leads_to(bytes: &[u8], place: usize, start: usize, at: usize) -> bool
    requires told { place + 4 ≤ length bytes.now }
    requires inside { start ≤ length bytes.now }
    ensures { result ≡ (start + value_at bytes.now 4 place == at) }
{
    start + value_at::<4>(bytes, place) as usize == at
}

// The row of the state `s`, its offset and its sums. The offsets stand at `offsets`, and the rows behind them.
fn check_row(part: &mut Part, offsets: usize, n: Numbers, s: u32) -> Result<(), Refusal>
    requires state { s < n.states }
    requires inside { offsets + 4 * n.states ≤ (part_of part.old).end }
    requires table { offsets + 4 * n.states < 2 ^ 31 }
    requires near { part.old.at + 149 < 2 ^ 31 }
    ensures same { part_of part.new ≡ part_of part.old }
    ensures place { part.new.at ≤ part.old.at + 149 }
    ensures answer { Shows (λ _. tt)
        (row version1 (part_of part.old) offsets (offsets + 4 * n.states) n.states n.rates n.unit s part.old.at)
        result part.new.at }
{
    let at = part.at;
    let place = offsets + 4 * s as usize;
    if !leads_to(part.bytes, place, offsets + 4 * n.states as usize, at) {
        return Err(Refusal::BadRow(place as u32));
    }
    let row = read_row(part, n.states, n.rates)?;
    if !tally(&row.edges, n.unit, power(row.rate_count)) {
        return Err(Refusal::BadSum(at as u32));
    }
    Ok(())
}

// The rows in state order, from the end of their offsets on.
fn check_rows(part: &mut Part, offsets: usize, n: Numbers) -> Result<(), Refusal>
    requires start { part.old.at ≡ offsets + 4 * n.states }
    requires near { offsets < 2 ^ 16 }
    ensures same { part_of part.new ≡ part_of part.old }
    ensures answer { Shows (λ _. tt) (rows version1 (part_of part.old) (numbers_of n) offsets) result part.new.at }
{
    for s in 0..n.states {
        check_row(part, offsets, n, s)?;
    }
    Ok(())
}

// The first of some marks that is neither 0 nor 1.
fn wrong_mark(marks: &[u8]) -> Option<usize>
    ensures first { IfSome result (λ i. (i < length marks.now) × (1 < slice_index marks.now i)
        × ((k : ℕ) → k < i → slice_index marks.now k ≤ 1)) }
    ensures none { IfNone result ((k : ℕ) → k < length marks.now → slice_index marks.now k ≤ 1) }
{
    marks.iter().position(|mark| *mark > 1)
}

// A mark for each state.
fn check_marks(bytes: &[u8], at: usize, states: u32) -> Result<(), Refusal>
    requires inside { at + states ≤ length bytes.now }
    requires near { at + states < 2 ^ 31 }
    ensures { Shows (λ _. tt) (marks (part bytes.now (at + states) BadMark) states at) result (at + states) }
{
    match wrong_mark(&bytes[at..at + states as usize]) {
        Some(state) => Err(Refusal::BadMark((at + state) as u32)),
        None => Ok(()),
    }
}

// The rows and what stands after them.
fn check_from_rows(bytes: &[u8], at: usize, n: Numbers) -> Result<(), Refusal>
    requires inside { at + 4 * n.states ≤ length bytes.now }
    requires near { at < 2 ^ 16 }
    ensures { (ms : List ℕ) → Shows (λ _. tt) (rows_on version1 bytes.now (length bytes.now) (numbers_of n) ms at) result (length bytes.now) }
{
    let start = at + 4 * n.states as usize;
    let mut part = Part::new(bytes, Section::Rows, start, bytes.len());
    check_rows(&mut part, at, n)?;
    if !part.rest.is_empty() {
        return Err(Refusal::BadRow(40));
    }
    Ok(())
}

// The marks and what stands after them.
fn check_from_marks(bytes: &[u8], l: Lengths, n: Numbers) -> Result<(), Refusal>
    requires whole { 44 + (l.numbers + (l.marks + (l.offsets + (l.rows + 0)))) ≡ length bytes.now }
    requires seven { l.numbers ≡ 7 }
    ensures { Shows (λ _. tt) (marks_on version1 bytes.now l.numbers l.marks l.offsets l.rows (numbers_of n) 51) result (length bytes.now) }
{
    if l.marks != n.states {
        return Err(Refusal::BadMark(20));
    }
    check_marks(bytes, 51, n.states)?;
    if l.offsets != 4 * n.states {
        return Err(Refusal::BadRow(30));
    }
    check_from_rows(bytes, 51 + n.states as usize, n)
}

// Whether the bytes are a chain's file.
pub(crate) fn check(bytes: &[u8]) -> Result<(), Refusal>
    ensures ok { OnOk result ((f : File) × (opened bytes.now ≡ got f (length bytes.now))) }
    ensures told { OnOk result (Told version1 bytes.now (chain_in bytes.now)) }
    ensures again { OnOk result (encode (chain_in bytes.now) ≡ bytes.now) }
    ensures err { IfErr result (λ e. opened bytes.now ≡ refused e) }
{
    let l = read_contents(bytes)?;
    let bodies = l.numbers as usize + (l.marks as usize + (l.offsets as usize + l.rows as usize));
    if 44 + bodies != bytes.len() {
        return Err(Refusal::BadContents(40));
    }
    if l.numbers != 7 {
        return Err(Refusal::BadNumbers(10));
    }
    let mut part = Part::new(bytes, Section::Numbers, 44, 44 + l.numbers as usize);
    let n = Numbers::read(&mut part)?;
    check_from_marks(bytes, l, n)
}
