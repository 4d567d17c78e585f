ghost use Rattle.std.specs.Prelude.{◌≡◌, ℕ, ◌<◌, ◌≤◌, length, slice_index};

pub mod build;

// A grid number for each of up to four rates.
pub type Sides = [u32; 4];

// A box of rates: on a grid of 1 to 1,000, a low and a high grid number for each of 1 to 4 rates, each low
// below its high. What stands behind the last rate has no meaning.
#[derive(Clone, Copy)]
pub struct Region {
    grid: u32,
    rates: u32,
    low: [u32; 4],
    high: [u32; 4],
    ghost grid_some: { 1 ≤ grid },
    ghost grid_few: { grid ≤ 1000 },
    ghost rates_some: { 1 ≤ rates },
    ghost rates_few: { rates ≤ 4 },
    ghost low_size: { length low ≡ 4 },
    ghost high_size: { length high ≡ 4 },
    ghost wide: { (r : ℕ) → r < rates → slice_index low r < slice_index high r },
    ghost within: { (r : ℕ) → r < rates → slice_index high r ≤ grid },
}
