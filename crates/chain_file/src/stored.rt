// The stored chain: it answers from the bytes of a chain file.
ghost use Rattle.std.specs.Prelude.{◌≡◌, ℕ, ◌+◌, ◌-◌, ◌*◌, ◌<◌, ◌≤◌, length, MatchResult, slice_index};
ghost use Rattle.chain.specs.Chains.{Lawful};
ghost use Rattle.chain_format.specs.Reader.{value_at, refused};
ghost use Rattle.chain_format.specs.Format.{version1, opened, encode, Opens, chain_in};
ghost use Rattle.chain_format.specs.Same.{Same};
ghost use Rattle.chain_format.specs.Theorems.{Bytes};
ghost use Rattle.chain_format.proofs.Holds.{told, row_at};
ghost use Rattle.chain.specs.declared.refusal.Refusal.TheVariants.{ShortBuffer};
ghost use Rattle.chain_writer.specs.Wrote.{Wrote};
ghost use Rattle.chain_file.specs.First.{first_chain};

use crate::check::check;
use crate::part::{Part, Section, value_at};
use crate::row::read_row;
use chain::interface::Chain;
use chain::record::RowRecord;
use chain::refusal::Refusal;
use chain_writer::write_chain;

// A chain, and the file that it is read from. The file is one that opens, so its bytes tell the chain.
#[derive(Clone, Copy)]
pub struct StoredChain<'a> {
    bytes: &'a [u8],
    ghost fit: { Bytes bytes.now },
    ghost ok: { Opens bytes.now },
    ghost again: { encode (chain_in bytes.now) ≡ bytes.now },
    ghost long: { 51 + 5 * (chain_in bytes.now).states ≤ length bytes.now },
    ghost states: { value_at bytes.now 2 44 ≡ (chain_in bytes.now).states },
    ghost rates: { value_at bytes.now 1 46 ≡ (chain_in bytes.now).rates },
    ghost unit: { value_at bytes.now 2 47 ≡ (chain_in bytes.now).unit },
    ghost start: { value_at bytes.now 2 49 ≡ (chain_in bytes.now).start },
    ghost marks: { (s : ℕ) → s < (chain_in bytes.now).states → slice_index bytes.now (51 + s) ≡ (chain_in bytes.now).mark s },
}

// The file of the chain with one state, which loops.
const FIRST: [u8; 62] = [
    1, 0, 4, 0, 1, 0, 44, 0, 0, 0, 7, 0, 0, 0, 2, 0, 51, 0, 0, 0, 1, 0, 0, 0, 3, 0, 52, 0, 0, 0, 4,
    0, 0, 0, 4, 0, 56, 0, 0, 0, 6, 0, 0, 0, 1, 0, 1, 1, 0, 0, 0, 0, 0, 0, 0, 0, 0, 1, 0, 0, 1, 0,
];

impl<'a> StoredChain<'a> {
    // One state, which loops and is not bad; the unit and the number of rates are 1.
    pub fn new() -> StoredChain<'a>
        ensures { (result.bytes.now ≡ encode first_chain) × (Same (chain_in result.bytes.now) first_chain) }
    {
        StoredChain { bytes: &FIRST }
    }

    // Becomes the chain of a file. Refused, it stays as it was.
    pub fn open(&mut self, bytes: &'a [u8]) -> Result<(), Refusal>
        ensures { MatchResult result (λ _. Opens bytes.now × (self.new.bytes.now ≡ bytes.now)) (λ e. (opened bytes.now ≡ refused e) × (self.new ≡ self.old)) }
    {
        check(bytes)?;
        self.bytes = bytes;
        Ok(())
    }

    // Writes the file again, the same bytes, to the start of a buffer and tells its length; the bytes after it stay.
    // A buffer that is too short gets 15 and stays as it is.
    pub fn write(&self, buffer: &mut [u8]) -> Result<usize, Refusal>
        ensures { MatchResult result (λ n. (n ≡ length self.now.bytes.now) × Wrote buffer.old buffer.new self.now.bytes.now) (λ e. (e ≡ ShortBuffer) × (length buffer.old < length self.now.bytes.now) × (buffer.new ≡ buffer.old)) }
    {
        write_chain(self, buffer)
    }

    fn count(&self) -> u32
        ensures { result ≡ (chain_in self.now.bytes.now).states }
    {
        value_at::<2>(self.bytes, 44)
    }

    // Where the row of a state stands: its offset counts from the end of the offsets.
    fn row_place(&self, state: u32) -> usize
        requires { state < (chain_in self.now.bytes.now).states }
        ensures value { result ≡ row_at version1 self.now.bytes.now (chain_in self.now.bytes.now).states state }
        ensures inside { result ≤ length self.now.bytes.now }
    {
        let states = self.count() as usize;
        let offsets = 51 + states;
        offsets + 4 * states + value_at::<4>(self.bytes, offsets + 4 * state as usize) as usize
    }
}

impl<'a> Chain for StoredChain<'a> {
    ghost meaning = { λ h. chain_in h.bytes.now };

    ghost lawful = { λ h. (told h.bytes.now h.fit h.ok).lawful };

    fn states(&self) -> u32 {
        self.count()
    }

    fn rates(&self) -> u32 {
        value_at::<1>(self.bytes, 46)
    }

    fn unit(&self) -> u32 {
        value_at::<2>(self.bytes, 47)
    }

    fn start(&self) -> u32 {
        value_at::<2>(self.bytes, 49)
    }

    fn mark(&self, state: u32) -> Result<u8, Refusal> {
        if state >= self.count() {
            return Err(Refusal::NoState);
        }
        Ok(self.bytes[51 + state as usize])
    }

    fn row(&self, state: u32, into: &mut RowRecord) -> Result<(), Refusal> {
        let states = self.count();
        if state >= states {
            return Err(Refusal::NoState);
        }
        let at = self.row_place(state);
        let mut part = Part::new(self.bytes, Section::Rows, at, self.bytes.len());
        *into = read_row(&mut part, states, self.rates())?;
        Ok(())
    }
}
