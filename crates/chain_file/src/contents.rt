// The contents of a file: the lengths of its bodies.
ghost use Rattle.std.specs.Prelude.{◌≡◌, ℕ, ◌+◌, ◌-◌, ◌*◌, ◌^◌, ◌<◌, ◌≤◌, length, OnOk};
ghost use Rattle.chain.specs.declared.refusal.Refusal.TheVariants.{BadContents};
ghost use Rattle.chain_format.specs.Reader.{part, repeat};
ghost use Rattle.chain_format.specs.Format.{version1, entry, next_entry, contents};
ghost use Rattle.chain_file.specs.Parts.{part_of, answer_of, answer_by};
ghost use Rattle.chain_file.specs.Known.{lengths_of};

use crate::part::{Part, Section};
use chain::refusal::Refusal;

// The lengths of the bodies.
#[derive(Clone, Copy)]
pub(crate) struct Lengths {
    pub(crate) numbers: u32,
    pub(crate) marks: u32,
    pub(crate) offsets: u32,
    pub(crate) rows: u32,
}

// An entry of a kind and an offset; tells the length.
fn read_entry(part: &mut Part, kind: u32, offset: u64) -> Result<u32, Refusal>
    requires near { part.old.at < 50 }
    ensures same { part_of part.new ≡ part_of part.old }
    ensures place { part.new.at ≤ part.old.at + 10 }
    ensures moved { OnOk result (part.new.at ≡ part.old.at + 10) }
    ensures answer { entry (part_of part.old) (kind, offset) part.old.at ≡ answer_of result part.new.at }
{
    part.exactly::<2>(kind as u64)?;
    part.exactly::<4>(offset)?;
    part.number::<4>()
}

// The entries of sections in order, one for each place of `into`; tells the lengths.
fn read_entries(part: &mut Part, into: &mut [u32]) -> Result<(), Refusal>
    requires few { length into.old ≤ 4 }
    requires near { part.old.at < 10 }
    ensures same { part_of part.new ≡ part_of part.old }
    ensures moved { OnOk result (part.new.at ≡ part.old.at + 10 * length into.old) }
    ensures answer { repeat (entry (part_of part.old)) next_entry (length into.old) (1, 44) part.old.at
        ≡ answer_by (λ _. into.new) result part.new.at }
{
    let mut kind = 1;
    let mut offset = 44;
    for place in into.iter_mut() {
        let length = read_entry(part, kind, offset)?;
        kind += 1;
        offset += length as u64;
        *place = length;
    }
    Ok(())
}

// Version 1 with four sections, and an entry for each.
fn read_lengths(part: &mut Part) -> Result<Lengths, Refusal>
    requires near { part.old.at < 5 }
    ensures same { part_of part.new ≡ part_of part.old }
    ensures moved { OnOk result (part.new.at ≡ part.old.at + 44) }
    ensures answer { contents version1 (part_of part.old) part.old.at ≡ answer_by lengths_of result part.new.at }
{
    part.header(1)?;
    part.header(4)?;
    let mut lengths = [0; 4];
    read_entries(part, &mut lengths)?;
    let [numbers, marks, offsets, rows] = lengths;
    Ok(Lengths {
        numbers,
        marks,
        offsets,
        rows,
    })
}

// The contents of a file.
pub(crate) fn read_contents(bytes: &[u8]) -> Result<Lengths, Refusal>
    ensures answer { contents version1 (part bytes.now (length bytes.now) BadContents) 0 ≡ answer_by lengths_of result 44 }
    ensures long { OnOk result (44 ≤ length bytes.now) }
{
    read_lengths(&mut Part::new(bytes, Section::Contents, 0, bytes.len()))
}
