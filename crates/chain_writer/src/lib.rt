// Writes the file of any chain into a buffer.

#![tactic(auto)]

mod bytes;
mod file;
mod row;
mod sections;

ghost use Rattle.std.specs.Prelude.{◌≡◌, ◌+◌, ◌*◌, ◌<◌, ◌≤◌, length, take, IfOk, MatchResult};
ghost use Rattle.chain.specs.Chains.{most_states};
ghost use Rattle.chain.specs.declared.refusal.Refusal.TheVariants.{ShortBuffer};
ghost use Rattle.chain_format.specs.Format.{encode};
ghost use Rattle.chain_writer.specs.Wrote.{Wrote, ReadsAs};

use crate::file::File;
use chain::interface::Chain;
use chain::refusal::Refusal;
use sink::{Encode, write};

// How many bytes the file of a chain has: at most 630835.
pub fn file_length<C: Chain>(chain: &C) -> usize
    ensures exact { result ≡ length (encode (C.meaning chain.now)) }
    ensures most { result ≤ 51 + 154 * most_states }
{
    File::of(chain).length()
}

// Writes the file of a chain to the start of a buffer and tells its length; the bytes after it stay.
// A buffer too short for the file stays as it is. What is written reads as the same chain again.
pub fn write_chain<C: Chain>(chain: &C, buffer: &mut [u8]) -> Result<usize, Refusal>
    ensures written { MatchResult result (λ n. (n ≡ length (encode (C.meaning chain.now))) × Wrote buffer.old buffer.new (encode (C.meaning chain.now))) (λ e. (e ≡ ShortBuffer) × (length buffer.old < length (encode (C.meaning chain.now))) × (buffer.new ≡ buffer.old)) }
    ensures again { IfOk result (λ n. ReadsAs (take n buffer.new) (C.meaning chain.now)) }
{
    write(&File::of(chain), buffer).map_err(|_| Refusal::ShortBuffer)
}

#[cfg(test)]
mod tests;
