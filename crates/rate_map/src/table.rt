ghost use Rattle.std.specs.Prelude.{ℕ, ◌≤◌, slice_index, slice_index_or};
ghost use Rattle.theory.specs.Maps.{no_box};

use arrayvec::ArrayVec;
use theory::record::BoxRecord;

pub mod ways;

// Up to 128 boxes.
#[derive(Drop)]
pub(crate) struct Table {
    boxes: ArrayVec<BoxRecord, 128>,
    ghost few: { (i r : ℕ) → slice_index (slice_index_or boxes.items i no_box).high r ≤ 1000 },
}
