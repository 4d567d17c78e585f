// A sink that counts.
ghost use Rattle.std.specs.Prelude.{◌≡◌, ◌-◌, ◌^◌, length};
ghost use Rattle.sink.specs.Taken.{onward};
ghost use Rattle.sink.specs.Laws.{counted_none, counted_more};

use crate::Sink;

// How many bytes were put, up to the largest number that there is.
#[derive(Clone, Copy)]
pub(crate) struct Counter {
    count: usize,
}

impl Counter {
    pub(crate) fn new() -> Counter
        ensures { result.count ≡ 0 }
    {
        Counter { count: 0 }
    }

    pub(crate) fn count(self) -> usize
        ensures { result ≡ self.count }
    {
        self.count
    }
}

impl Sink for Counter {
    ghost Takes = { λ s xs t. t.count ≡ onward (2 ^ 64 - 1) s.count (length xs) };

    fn put(&mut self, bytes: &[u8]) {
        self.count = self.count.saturating_add(bytes.len());
    }

    fn put_byte(&mut self, _byte: u8) {
        self.count = self.count.saturating_add(1);
    }

    ghost none = { λ s. counted_none (2 ^ 64 - 1) s.count };

    ghost more = { λ s t u xs ys p q. counted_more (2 ^ 64 - 1) s.count t.count u.count xs ys p q };
}
