// The sheet of a closed map.
ghost use Rattle.std.specs.Prelude.{◌≡◌, ◌≤◌, true, length, is_ok};
ghost use Rattle.theory.specs.Maps.{volumes as volumes_of, no_volumes};
ghost use Rattle.sheet.specs.Sheet.{sheet_bytes};
ghost use Rattle.sheet.specs.Wrote.{Written};
ghost use Rattle.rate_map.specs.Values.{map_value};

use crate::map::ClosedMap;
use chain::interface::Chain;
use chain::refusal::Refusal;
use sheet::write_sheet;

impl<C: Chain> ClosedMap<C> {
    // Writes the sheet into a buffer and tells its length: a line for each box, and one with the volumes. Later bytes of
    // the buffer stay. A buffer that is too short gets 15, and nothing is written. 30,527 bytes are always enough.
    pub fn sheet(&self, buffer: &mut [u8]) -> Result<usize, Refusal>
        ensures written { Written result buffer.old buffer.new (sheet_bytes (C.meaning self.now.chain).rates (map_value self.now).boxes (volumes_of (C.meaning self.now.chain).rates (map_value self.now).boxes no_volumes)) }
        ensures enough { 30527 ≤ length buffer.old → is_ok result ≡ true }
    {
        write_sheet(
            self.chain.rates(),
            self.table.boxes(),
            &self.measure(),
            buffer,
        )
    }
}
