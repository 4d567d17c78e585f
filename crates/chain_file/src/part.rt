// A part of a file, and the numbers that are read from it.
ghost use Rattle.std.specs.Prelude.{◌≡◌, ℕ, ◌+◌, ◌-◌, ◌*◌, ◌^◌, ◌<◌, ◌≤◌, length, take, drop, IfOk, OnOk};
ghost use Rattle.chain_format.specs.Reader.{value_at};

use chain::refusal::Refusal;

// The parts of a chain file.
#[derive(Clone, Copy)]
pub(crate) enum Section {
    Contents,
    Numbers,
    Marks,
    Rows,
}

impl Section {
    ghost use Rattle.chain_file.specs.Faults.{fault_of};

    // The refusal of a fault in the section, at a byte of the file.
    fn refusal(self, place: usize) -> Refusal
        requires { place < 2 ^ 32 }
        ensures { result ≡ fault_of self place }
    {
        let place = place as u32;
        match self {
            Section::Contents => Refusal::BadContents(place),
            Section::Numbers => Refusal::BadNumbers(place),
            Section::Marks => Refusal::BadMark(place),
            Section::Rows => Refusal::BadRow(place),
        }
    }
}

// The number in the `W` bytes at a place, low byte first.
#[inline]
pub(crate) fn value_at<const W: usize>(bytes: &[u8], at: usize) -> u32
    requires width { W ≤ 4 }
    requires inside { at + W ≤ length bytes.now }
    ensures value { result ≡ value_at bytes.now W at }
    ensures under { result < 256 ^ W }
{
    let mut word = [0; 4];
    word[..W].copy_from_slice(&bytes[at..at + W]);
    u32::from_le_bytes(word)
}

// A file, and what is left of a part of it, from the place that is read next. Numbers are taken from the front.
#[derive(Drop)]
pub(crate) struct Part<'a> {
    pub(crate) bytes: &'a [u8],
    pub(crate) rest: &'a [u8],
    pub(crate) at: usize,
    section: Section,
    ghost inside: { at + length rest.now ≤ length bytes.now },
    ghost left: { rest.now ≡ take (length rest.now) (drop at bytes.now) },
}

impl<'a> Part<'a> {
    ghost use Rattle.chain_format.specs.Reader.{part, number, field, from, is};
    ghost use Rattle.chain_format.specs.Format.{coefficient};
    ghost use Rattle.chain_file.specs.Faults.{fault_of};
    ghost use Rattle.chain_file.specs.Parts.{part_of, answer_of, answer_by};

    // A section of a file, from `at` to `end`.
    pub(crate) fn new(bytes: &'a [u8], section: Section, at: usize, end: usize) -> Part<'a>
        requires ahead { at ≤ end }
        requires inside { end ≤ length bytes.now }
        ensures value { part_of result ≡ part bytes.now end (fault_of section) }
        ensures place { result.at ≡ at }
    {
        Part {
            bytes,
            rest: &bytes[at..end],
            at,
            section,
        }
    }

    // A number of `W` bytes, low byte first. Cut off, it is refused at the part's end.
    #[inline]
    pub(crate) fn number<const W: usize>(&mut self) -> Result<u32, Refusal>
        requires width { W ≤ 4 }
        requires near { self.old.at < 2 ^ 31 }
        ensures same { part_of self.new ≡ part_of self.old }
        ensures place { self.new.at ≤ self.old.at + W }
        ensures moved { OnOk result (self.new.at ≡ self.old.at + W) }
        ensures answer { number (part_of self.old) W self.old.at ≡ answer_of result self.new.at }
        ensures under { IfOk result (λ v. v < 256 ^ W) }
    {
        let Some((word, rest)) = self.rest.split_first_chunk::<W>() else {
            return Err(self.section.refusal(self.at + self.rest.len()));
        };
        self.rest = rest;
        self.at += W;
        Ok(value_at::<W>(word, 0))
    }

    // A number that has to be `due`. Any other is refused at its place.
    #[inline]
    pub(crate) fn exactly<const W: usize>(&mut self, due: u64) -> Result<(), Refusal>
        requires width { W ≤ 4 }
        requires near { self.old.at < 2 ^ 31 }
        ensures same { part_of self.new ≡ part_of self.old }
        ensures place { self.new.at ≤ self.old.at + W }
        ensures moved { OnOk result (self.new.at ≡ self.old.at + W) }
        ensures answer { field (part_of self.old) W (is due) self.old.at ≡ answer_by (λ _. due) result self.new.at }
    {
        let at = self.at;
        let value = self.number::<W>()?;
        if value as u64 != due {
            return Err(self.section.refusal(at));
        }
        Ok(())
    }

    // A number of the file's header, which has to be `due`. Its two bytes are taken apart by a pattern, and the rest is
    // handed on.
    pub(crate) fn header(&mut self, due: u64) -> Result<(), Refusal>
        requires near { self.old.at < 2 ^ 31 }
        ensures same { part_of self.new ≡ part_of self.old }
        ensures place { self.new.at ≤ self.old.at + 2 }
        ensures moved { OnOk result (self.new.at ≡ self.old.at + 2) }
        ensures answer { field (part_of self.old) 2 (is due) self.old.at ≡ answer_by (λ _. due) result self.new.at }
    {
        let [low, high, rest @ ..] = self.rest else {
            return Err(self.section.refusal(self.at + self.rest.len()));
        };
        if value_at::<2>(&[*low, *high], 0) as u64 != due {
            return Err(self.section.refusal(self.at));
        }
        self.rest = rest;
        self.at += 2;
        Ok(())
    }

    // A number from `low` on and below `top`. Any other is refused at its place.
    #[inline]
    pub(crate) fn field<const W: usize>(&mut self, low: u32, top: u32) -> Result<u32, Refusal>
        requires width { W ≤ 4 }
        requires near { self.old.at < 2 ^ 31 }
        ensures same { part_of self.new ≡ part_of self.old }
        ensures place { self.new.at ≤ self.old.at + W }
        ensures moved { OnOk result (self.new.at ≡ self.old.at + W) }
        ensures answer { field (part_of self.old) W (from low top) self.old.at ≡ answer_of result self.new.at }
        ensures lowest { IfOk result (λ v. low ≤ v) }
        ensures below { IfOk result (λ v. v < top) }
    {
        let at = self.at;
        let value = self.number::<W>()?;
        if !(low..top).contains(&value) {
            return Err(self.section.refusal(at));
        }
        Ok(value)
    }

    // A coefficient: 16 bits with a sign, from -8000 to 8000.
    #[inline]
    pub(crate) fn coefficient(&mut self) -> Result<i16, Refusal>
        requires near { self.old.at < 2 ^ 31 }
        ensures same { part_of self.new ≡ part_of self.old }
        ensures place { self.new.at ≤ self.old.at + 2 }
        ensures answer { coefficient (part_of self.old) self.old.at ≡ answer_of result self.new.at }
    {
        let at = self.at;
        let bits = self.number::<2>()?;
        let value = (bits as u16).cast_signed();
        if value.unsigned_abs() > 8000 {
            return Err(self.section.refusal(at));
        }
        Ok(value)
    }
}
