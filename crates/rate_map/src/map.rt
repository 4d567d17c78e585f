ghost use Rattle.std.specs.Prelude.{◌≤◌};

use crate::table::Table;
use std::marker::PhantomData;

pub mod ask;
pub mod change;
pub mod show;
pub mod turn;

// The state of a map that may still be cut and judged.
pub struct Open;

// The state of a map that stands as it was closed.
pub struct Closed;

// A map in a state: a chain, a grid, a limit in millionths, and up to 128 boxes.
#[derive(Drop)]
pub struct RateMap<C, S> {
    chain: C,
    grid: u32,
    limit: u32,
    table: Table,
    state: PhantomData<S>,
    ghost grid_few: { grid ≤ 1000 },
}

pub type OpenMap<C> = RateMap<C, Open>;

pub type ClosedMap<C> = RateMap<C, Closed>;
