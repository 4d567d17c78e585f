// All lines of the sheet.
ghost use Rattle.std.specs.Prelude.{◌*◌, ◌≤◌, length};
ghost use Rattle.sheet.specs.Sheet.{box_lines, sheet_bytes, longest_line, longest_sheet};

use crate::line::{BoxLine, LONGEST_LAST, LONGEST_LINE, put_volumes};
use sink::{Encode, Sink};
use theory::record::{BoxRecord, Volumes};

// A line for each box, and a last one with the volumes.
#[derive(Clone, Copy)]
pub(crate) struct Lines<'a> {
    pub(crate) rates: u32,
    pub(crate) boxes: &'a [BoxRecord],
    pub(crate) volumes: &'a Volumes,
}

impl Lines<'_> {
    fn put_boxes<S: Sink>(&self, sink: &mut S)
        ensures taken { S.Takes sink.old (box_lines 0 self.now.rates self.now.boxes.now) sink.new }
        ensures within { length (box_lines 0 self.now.rates self.now.boxes.now) ≤ longest_line * length self.now.boxes.now }
    {
        for (i, shown) in self.boxes.iter().enumerate() {
            BoxLine {
                number: i as u64,
                rates: self.rates,
                shown,
            }
            .encode(sink);
        }
    }
}

impl Encode for Lines<'_> {
    ghost bytes = { λ l. sheet_bytes l.rates l.boxes.now l.volumes.now };

    ghost most = { λ l. longest_sheet (length l.boxes.now) };

    fn encode<S: Sink>(&self, sink: &mut S) {
        self.put_boxes(sink);
        put_volumes(sink, self.volumes);
    }

    fn fits_always(&self, buffer: &[u8]) -> bool {
        let longest = LONGEST_LINE.saturating_mul(self.boxes.len());
        longest.saturating_add(LONGEST_LAST) <= buffer.len()
    }

    // Tells it at the first line that is too long.
    fn fits(&self, buffer: &[u8]) -> bool {
        let mut left = buffer.len();
        for (i, shown) in self.boxes.iter().enumerate() {
            let line = BoxLine {
                number: i as u64,
                rates: self.rates,
                shown,
            };
            let length = line.length();
            if left < length {
                return false;
            }
            left -= length;
        }
        let last = Lines {
            boxes: &[],
            ..*self
        };
        last.length() <= left
    }
}
