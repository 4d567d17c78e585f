// Rows read from a part of a file.
ghost use Rattle.std.specs.Prelude.{◌≡◌, ℕ, ◌+◌, ◌-◌, ◌*◌, ◌^◌, ◌<◌, ◌≤◌, List, map, length, IfOk, IfErr};
ghost use Rattle.chain.specs.Chains.{Edge, Row};
ghost use Rattle.chain.specs.Filled.{filled_edge, filled};
ghost use Rattle.chain_format.specs.Reader.{repeat, stay, got, refused};
ghost use Rattle.chain_format.specs.Format.{version1, rate, coefficient, edge, form};
ghost use Rattle.chain_file.specs.Parts.{part_of, answer_by, Shows};

use crate::part::Part;
use chain::record::{EdgeRecord, NO_EDGE, RowRecord};
use chain::refusal::Refusal;

// The ascending rates of a row, one for each place of `into`.
fn read_rates(part: &mut Part, rates: u32, into: &mut [u8]) -> Result<(), Refusal>
    requires few { rates ≤ 256 }
    requires near { part.old.at + length into.old < 2 ^ 31 }
    ensures same { part_of part.new ≡ part_of part.old }
    ensures place { part.new.at ≤ part.old.at + length into.old }
    ensures answer { repeat (rate (part_of part.old) rates) (λ _ x. x + 1) (length into.old) 0 part.old.at
        ≡ answer_by (λ _. into.new) result part.new.at }
{
    let mut low = 0;
    for place in into.iter_mut() {
        let rate = part.field::<1>(low, rates)?;
        *place = rate as u8;
        low = rate + 1;
    }
    Ok(())
}

// The coefficients of an edge, one for each place of `into`.
fn read_coefficients(part: &mut Part, into: &mut [i16]) -> Result<(), Refusal>
    requires near { part.old.at + 2 * length into.old < 2 ^ 31 }
    ensures same { part_of part.new ≡ part_of part.old }
    ensures place { part.new.at ≤ part.old.at + 2 * length into.old }
    ensures answer { repeat (λ _. coefficient (part_of part.old)) stay (length into.old) 0 part.old.at
        ≡ answer_by (λ _. into.new) result part.new.at }
{
    for place in into.iter_mut() {
        *place = part.coefficient()?;
    }
    Ok(())
}

// An edge whose successor is at least `low`.
fn read_edge(part: &mut Part, states: u32, size: usize, low: u32) -> Result<EdgeRecord, Refusal>
    requires size { size ≤ 8 }
    requires near { part.old.at + 18 < 2 ^ 31 }
    ensures same { part_of part.new ≡ part_of part.old }
    ensures place { part.new.at ≤ part.old.at + 18 }
    ensures answer { Shows filled_edge (edge version1 (part_of part.old) states size low part.old.at) result part.new.at }
    ensures below { IfOk result (λ edge. edge.successor < states) }
{
    let successor = part.field::<2>(low, states)?;
    let mut coefficients = [0; 8];
    read_coefficients(part, &mut coefficients[..size])?;
    Ok(EdgeRecord {
        successor,
        coefficients,
    })
}

// The edges of a row, one for each place of `into`, with ascending successors.
fn read_edges(
    part: &mut Part,
    states: u32,
    size: usize,
    into: &mut [EdgeRecord],
) -> Result<(), Refusal>
    requires size { size ≤ 8 }
    requires near { part.old.at + 18 * length into.old < 2 ^ 31 }
    ensures same { part_of part.new ≡ part_of part.old }
    ensures place { part.new.at ≤ part.old.at + 18 * length into.old }
    ensures ok { IfOk result (λ _. (es : List Edge)
        × (repeat (edge version1 (part_of part.old) states size) (λ _ e. e.successor + 1) (length into.old) 0 part.old.at ≡ got es part.new.at)
        × (into.new ≡ map filled_edge es)) }
    ensures err { IfErr result (λ e.
        repeat (edge version1 (part_of part.old) states size) (λ _ e. e.successor + 1) (length into.old) 0 part.old.at ≡ refused e) }
{
    let mut low = 0;
    for place in into.iter_mut() {
        let edge = read_edge(part, states, size, low)?;
        low = edge.successor + 1;
        *place = edge;
    }
    Ok(())
}

// 2 to the power of a number up to 3.
pub(crate) fn power(count: u8) -> usize
    requires { count ≤ 3 }
    ensures value { result ≡ 2 ^ count }
    ensures few { result ≤ 8 }
{
    1 << count
}

// The form of a row: its rates and its edges.
pub(crate) fn read_row(part: &mut Part, states: u32, rates: u32) -> Result<RowRecord, Refusal>
    requires few { rates ≤ 256 }
    requires near { part.old.at + 149 < 2 ^ 31 }
    ensures same { part_of part.new ≡ part_of part.old }
    ensures place { part.new.at ≤ part.old.at + 149 }
    ensures answer { Shows filled (form version1 (part_of part.old) states rates part.old.at) result part.new.at }
    ensures named { IfOk result (λ row. row.rate_count ≤ 3) }
{
    let rate_count = part.field::<1>(0, 4)?;
    let mut named = [0; 3];
    read_rates(part, rates, &mut named[..rate_count as usize])?;
    let edge_count = part.field::<1>(1, 9)?;
    let mut edges = [NO_EDGE; 8];
    read_edges(
        part,
        states,
        power(rate_count as u8),
        &mut edges[..edge_count as usize],
    )?;
    Ok(RowRecord {
        rate_count: rate_count as u8,
        rates: named,
        edge_count: edge_count as u8,
        edges,
    })
}
