// Lay out, split and witnesses: the calls that change an open map.
ghost use Rattle.std.specs.Prelude.{◌≡◌, ℕ, ◌+◌, ◌*◌, ◌<◌, ◌≤◌, ◌↔◌, ◌&&◌, length, Ok, Err, IsOk, IfOk, nat_le, nat_lt};
ghost use Rattle.theory.specs.Witness.{at};
ghost use Rattle.theory.specs.Maps.{unused, laid_out, split as split_value, for_box, box_at, sides_of};
ghost use Rattle.rate_map.specs.Exactly.{OpenBox};
ghost use Rattle.rate_map.specs.Values.{map_value, used};
ghost use Rattle.rate_map.specs.Calls.{Changes, witness_on};

use crate::laid::{can_cut, is_open, laid_box};
use crate::map::OpenMap;
use crate::table::Table;
use chain::interface::Chain;
use chain::refusal::Refusal;
use theory::record::BoxRecord;
use witness::judge::Witness;
use witness::region::Region;

// Whether a table holds one open box.
fn is_unused(table: &Table) -> bool
    ensures { result ≡ unused (used table.now) }
{
    table.len() == 1 && is_open(table.at(0).verdict)
}

// Whether a table takes one box more.
fn has_room(table: &Table) -> bool
    ensures { result ≡ nat_lt (length (used table.now)) 128 }
{
    table.len() < 128
}

fn in_range(grid: u32, limit: u32) -> bool
    ensures { result ≡ ((nat_le 1 grid && nat_le grid 1000) && nat_le limit 1000000) }
{
    (1..=1000).contains(&grid) && limit <= 1_000_000
}

impl<C: Chain> OpenMap<C> {
    // Sets grid, limit and field while the map holds one open box. Refused with 8, 6 or 7, tried in this order.
    pub fn lay_out(&mut self, grid: u32, limit: u32, sides: &[u32]) -> Result<(), Refusal>
        ensures change { Changes (laid_out (C.meaning self.old.chain) (map_value self.old) grid limit sides.now) (map_value self.old) result (map_value self.new) }
        ensures chain { self.new.chain ≡ self.old.chain }
    {
        if !is_unused(&self.table) {
            return Err(Refusal::InUse);
        }
        if !in_range(grid, limit) {
            return Err(Refusal::BadGrid);
        }
        let rates = self.chain.rates();
        if sides.len() != 2 * rates as usize {
            return Err(Refusal::BadField);
        }
        let field = laid_box(rates, sides);
        Region::new(grid, rates, field.low, field.high).map_err(|_| Refusal::BadField)?;
        self.grid = grid;
        self.limit = limit;
        self.table = Table::one(field);
        Ok(())
    }

    // The open box of a number. Refused with 9 where there is no such box and 10 where it is not open.
    fn open_box(&self, number: u32) -> Result<BoxRecord, Refusal>
        ensures found { result ≡ for_box (map_value self.now) number (Ok (box_at (used self.now.table) number)) }
        ensures few { IfOk result (λ b. (r : ℕ) → at b.high r ≤ 1000) }
    {
        let i = number as usize;
        if i >= self.table.len() {
            return Err(Refusal::NoBox);
        }
        let b = self.table.at(i);
        if !is_open(b.verdict) {
            return Err(Refusal::NotOpen);
        }
        Ok(b)
    }

    // Cuts an open box at a place of a rate. Refused with 9, 10, 11 or 12, tried in this order.
    pub fn split(&mut self, number: u32, rate: u32, place: u32) -> Result<(), Refusal>
        ensures change { Changes (split_value (C.meaning self.old.chain) (map_value self.old) number rate place) (map_value self.old) result (map_value self.new) }
        ensures chain { self.new.chain ≡ self.old.chain }
    {
        let b = self.open_box(number)?;
        if !can_cut(self.chain.rates(), &b, rate, place) {
            return Err(Refusal::BadCut);
        }
        if !has_room(&self.table) {
            return Err(Refusal::Full);
        }
        self.table.halve(number as usize, rate as usize, place);
        Ok(())
    }

    // Takes a witness for an open box, which then has the witness's verdict. Refused with 9 or 10, then with 16 to 21.
    pub fn witness<W: Witness>(&mut self, number: u32, witness: &W) -> Result<(), Refusal>
        ensures change { Changes (witness_on (C.meaning self.old.chain) (map_value self.old) number (W.answer witness.now (C.meaning self.old.chain))) (map_value self.old) result (map_value self.new) }
        ensures exactly { IsOk result ↔ (OpenBox (C.meaning self.old.chain) (map_value self.old) number × W.Conditions witness.now (C.meaning self.old.chain) self.old.grid (sides_of (box_at (used self.old.table) number)) self.old.limit) }
        ensures chain { self.new.chain ≡ self.old.chain }
    {
        let b = self.open_box(number)?;
        let region = Region::new(self.grid, self.chain.rates(), b.low, b.high)?;
        let verdict = witness.judge(&self.chain, &region, self.limit)?;
        self.table.judge(number as usize, verdict);
        Ok(())
    }
}
