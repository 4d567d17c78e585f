// Calls for a program in another language that measures them. Each answers 0, or the number of a refusal.

#![tactic(auto)]

ghost use Rattle.std.specs.Prelude.{◌≡◌, ℕ};
ghost use Rattle.std.specs.Result.{result_unwrap_or};
ghost use Rattle.chain_format.specs.Format.{opened, taken};
ghost use Rattle.timed.specs.Timed.{result_number, open_number, witness_number, safe_number, unsafe_number, over_file, WritesAgain};

use chain::refusal::Refusal;
use chain_file::stored::StoredChain;
use rate_map::map::OpenMap;
use witness::judge::Witness;
use witness::judge::exceeding::UnsafeWitness;
use witness::judge::safe::SafeWitness;

fn number_of(res: Result<(), Refusal>) -> u32
    ensures { result ≡ result_number res }
{
    match res {
        Ok(()) => 0,
        Err(refusal) => refusal.number() as u32,
    }
}

// Opens a file and judges a witness for a field, on a new map.
fn judge<W: Witness>(
    file: &[u8],
    grid: u32,
    limit: u32,
    sides: &[u32],
    witness: &W,
) -> Result<(), Refusal>
    ensures { result_number result ≡ over_file (opened file.now) (λ c. witness_number (W.answer witness.now) c grid limit sides.now) }
{
    let mut chain = StoredChain::new();
    chain.open(file)?;
    let mut map = OpenMap::new(chain);
    let _ = map.lay_out(grid, limit, sides);
    map.witness(0, witness)
}

// Opens a file and writes it again into a buffer; tells its length.
fn write_again(file: &[u8], buffer: &mut [u8]) -> Result<usize, Refusal>
    ensures { WritesAgain (taken (opened file.now)) file.now buffer.old buffer.new (result_unwrap_or result 0) }
{
    let mut chain = StoredChain::new();
    chain.open(file)?;
    chain.write(buffer)
}

// Opens a file.
#[unsafe(no_mangle)]
pub extern "C" fn ratemap_open(file: &[u8]) -> u32
    ensures { result ≡ open_number (opened file.now) }
{
    let mut chain = StoredChain::new();
    number_of(chain.open(file))
}

// Opens a file and writes it again into a buffer; tells its length, or 0 where it does not open or the buffer is too
// short.
#[unsafe(no_mangle)]
pub extern "C" fn ratemap_write(file: &[u8], buffer: &mut [u8]) -> usize
    ensures { WritesAgain (taken (opened file.now)) file.now buffer.old buffer.new result }
{
    write_again(file, buffer).unwrap_or(0)
}

// Opens a file and judges a safe witness for a field.
#[unsafe(no_mangle)]
pub extern "C" fn ratemap_safe(file: &[u8], grid: u32, limit: u32, sides: &[u32], v: &[u32]) -> u32
    ensures { result ≡ over_file (opened file.now) (λ c. safe_number c grid limit sides.now v.now) }
{
    number_of(judge(file, grid, limit, sides, &SafeWitness { v }))
}

// Opens a file and judges an unsafe witness for a field.
#[unsafe(no_mangle)]
pub extern "C" fn ratemap_unsafe(
    file: &[u8],
    grid: u32,
    limit: u32,
    sides: &[u32],
    v: &[u32],
    w: &[u32],
) -> u32
    ensures { result ≡ over_file (opened file.now) (λ c. unsafe_number c grid limit sides.now v.now w.now) }
{
    number_of(judge(file, grid, limit, sides, &UnsafeWitness { v, w }))
}
