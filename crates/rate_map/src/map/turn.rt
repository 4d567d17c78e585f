// Making a map, closing it, and taking it apart.
ghost use Rattle.std.specs.Prelude.{◌≡◌};
ghost use Rattle.theory.specs.Maps.{new_map};
ghost use Rattle.rate_map.specs.Values.{map_value};

use crate::laid::laid_box;
use crate::map::{ClosedMap, OpenMap, RateMap};
use crate::table::Table;
use chain::interface::Chain;
use std::marker::PhantomData;

impl<C: Chain> OpenMap<C> {
    // A new map: the grid 1, the limit 0, and one open box from 0 to 1 in every rate.
    pub fn new(chain: C) -> OpenMap<C>
        ensures value { map_value result ≡ new_map (C.meaning chain) }
        ensures chain { result.chain ≡ chain }
    {
        let table = Table::one(laid_box(chain.rates(), &[0, 1, 0, 1, 0, 1, 0, 1]));
        RateMap {
            chain,
            grid: 1,
            limit: 0,
            table,
            state: PhantomData,
        }
    }

    // Closes the map; all that it holds stays.
    pub fn close(self) -> ClosedMap<C>
        ensures value { map_value result ≡ map_value self }
        ensures chain { result.chain ≡ self.chain }
    {
        RateMap {
            chain: self.chain,
            grid: self.grid,
            limit: self.limit,
            table: self.table,
            state: PhantomData,
        }
    }
}

impl<C: Chain, S> RateMap<C, S> {
    // Gives the chain back.
    pub fn into_chain(self) -> C
        ensures { result ≡ self.chain }
    {
        self.chain
    }
}
