// A sink that writes to a buffer.
ghost use Rattle.std.specs.Prelude.{◌≡◌, ◌≤◌, length};
ghost use Rattle.sink.specs.Taken.{Pasted};
ghost use Rattle.sink.specs.Laws.{pasted_none, pasted_more};
ghost use Rattle.std.proofs.Common.{refl, ◌∙◌};

use crate::Sink;

// A buffer, and the place up to which it is written.
#[derive(Drop)]
pub(crate) struct Cursor<'a> {
    buffer: &'a mut [u8],
    at: usize,
    ghost within: { at ≤ length buffer.now },
}

impl<'a> Cursor<'a> {
    pub(crate) fn new(buffer: &'a mut [u8]) -> Cursor<'a>
        ensures same_buffer { result.buffer.ghost_name ≡ buffer.entry.ghost_name }
        ensures bytes { result.buffer.now ≡ buffer.old }
        ensures start { result.at ≡ 0 }
    {
        Cursor { buffer, at: 0 }
    }

    // The place up to which the buffer is written.
    pub(crate) fn place(&self) -> usize
        ensures { result ≡ self.now.at }
    {
        self.at
    }
}

impl Sink for Cursor<'_> {
    ghost Takes = { λ s xs t. (t.buffer.ghost_name ≡ s.buffer.ghost_name) × Pasted s.buffer.now t.buffer.now s.at t.at xs };

    fn put(&mut self, bytes: &[u8]) {
        let end = self.at + bytes.len();
        if end <= self.buffer.len() {
            self.buffer[self.at..end].copy_from_slice(bytes);
            self.at = end;
        } else {
            let fitting = self.buffer.len() - self.at;
            self.buffer[self.at..].copy_from_slice(&bytes[..fitting]);
            self.at = self.buffer.len();
        }
    }

    fn put_byte(&mut self, byte: u8) {
        if self.at < self.buffer.len() {
            self.buffer[self.at] = byte;
            self.at += 1;
        }
    }

    ghost none = { λ s. (refl, pasted_none s.buffer.now s.at) };

    ghost more = { λ s t u xs ys p q. (q.0 ∙ p.0, pasted_more s.within p.1 q.1) };
}
