ghost use Rattle.std.specs.Prelude.{◌≡◌, ℕ, ◌+◌, ◌<◌, ◌≤◌, [], ◌∷◌, length, slice_set};
ghost use Rattle.theory.specs.Maps.{box_at, judged, low_half, high_half, cut_boxes};
ghost use Rattle.rate_map.specs.Values.{Few, used};

use super::Table;
use arrayvec::ArrayVec;
use theory::record::BoxRecord;
use theory::verdict::Verdict;

fn low_half(b: &BoxRecord, rate: usize, place: u32) -> BoxRecord
    requires { rate < 4 }
    ensures { result ≡ low_half b.now rate place }
{
    let mut high = b.high;
    high[rate] = place;
    BoxRecord {
        high,
        verdict: Verdict::Open,
        ..*b
    }
}

fn high_half(b: &BoxRecord, rate: usize, place: u32) -> BoxRecord
    requires { rate < 4 }
    ensures { result ≡ high_half b.now rate place }
{
    let mut low = b.low;
    low[rate] = place;
    BoxRecord {
        low,
        verdict: Verdict::Open,
        ..*b
    }
}

impl Table {
    // A table of one box.
    pub(crate) fn one(b: BoxRecord) -> Table
        requires { Few b }
        ensures { used result ≡ b ∷ [] }
    {
        let mut boxes = ArrayVec::new();
        boxes.push(b);
        Table { boxes }
    }

    pub(crate) fn len(&self) -> usize
        ensures count { result ≡ length (used self.now) }
        ensures few { result ≤ 128 }
    {
        self.boxes.len()
    }

    // The boxes in use.
    pub(crate) fn boxes(&self) -> &[BoxRecord]
        ensures same { result.now ≡ used self.now }
        ensures count { length result.now ≤ 128 }
        ensures few { (i : ℕ) → Few (box_at result.now i) }
    {
        self.boxes.as_slice()
    }

    pub(crate) fn at(&self, i: usize) -> BoxRecord
        requires { i < length (used self.now) }
        ensures found { result ≡ box_at (used self.now) i }
        ensures few { Few result }
    {
        self.boxes[i]
    }

    // The box gets its verdict.
    pub(crate) fn judge(&mut self, i: usize, verdict: Verdict)
        requires { i < length (used self.old) }
        ensures { used self.new ≡ slice_set (used self.old) i (judged (box_at (used self.old) i) verdict) }
    {
        self.boxes[i].verdict = verdict;
    }

    // The box keeps its low half, and the high half goes behind the last box.
    pub(crate) fn halve(&mut self, i: usize, rate: usize, place: u32)
        requires known { i < length (used self.old) }
        requires room { length (used self.old) < 128 }
        requires side { rate < 4 }
        requires few { place ≤ 1000 }
        ensures { used self.new ≡ cut_boxes (used self.old) i rate place }
    {
        let b = self.boxes[i];
        self.boxes[i] = low_half(&b, rate, place);
        self.boxes.push(high_half(&b, rate, place));
    }
}
