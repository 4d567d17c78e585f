// Bytes that are put one after another: what they are is written once, and serves to measure them and to write them.

#![tactic(auto)]

ghost use Rattle.std.specs.Prelude.{◌≡◌, ℕ, ◌-◌, ◌^◌, ◌≤◌, List, [], ◌∷◌, ◌++◌, length, min, IsOk, IsTrue, ◌↔◌};
ghost use Rattle.sink.specs.Taken.{WritesAll};

mod counter;
mod cursor;
mod nothing;

use counter::Counter;
use cursor::Cursor;
use nothing::Nothing;

// Takes bytes, one after another. What it has no room for, it drops.
pub trait Sink {
    // The bytes that a sink was given, between what it was before and what it is after.
    ghost Takes: { Self → List ℕ → Self → Type 0 };

    fn put(&mut self, bytes: &[u8])
        ensures { Takes self.old bytes.now self.new };

    fn put_byte(&mut self, byte: u8)
        ensures { Takes self.old (byte ∷ []) self.new }
    {
        self.put(&[byte])
    }

    ghost none: { (s : Self) → Takes s [] s };

    ghost more: { (s t u : Self) (xs ys : List ℕ) → Takes s xs t → Takes t ys u → Takes s (xs ++ ys) u };
}

// What is put into a sink as bytes.
pub trait Encode {
    ghost bytes: { Self → List ℕ };

    // How many bytes are always enough.
    ghost most: { Self → ℕ };

    fn encode<S: Sink>(&self, sink: &mut S)
        ensures taken { S.Takes sink.old (bytes self.now) sink.new }
        ensures within { length (bytes self.now) ≤ most self.now };

    // How many bytes those are. A value that knows it tells it without putting them.
    fn length(&self) -> usize
        ensures exact { result ≡ min (2 ^ 64 - 1) (length (bytes self.now)) }
        ensures within { length (bytes self.now) ≤ most self.now }
    {
        let mut counter = Counter::new();
        self.encode(&mut counter);
        counter.count()
    }

    // Shows that they are no more than `most`. It does nothing.
    fn short(&self)
        ensures { length (bytes self.now) ≤ most self.now }
    {
        self.encode(&mut Nothing)
    }

    // Whether a buffer is long enough for any value of the kind. It spares the measure; a kind that can't tell says no.
    fn fits_always(&self, buffer: &[u8]) -> bool
        ensures { IsTrue result → most self.now ≤ length buffer.now }
    {
        let _ = buffer;
        false
    }

    // Whether a buffer is long enough. A value of many parts can tell it at the first part that is too long.
    fn fits(&self, buffer: &[u8]) -> bool
        ensures exact { IsTrue result ↔ (length (bytes self.now) ≤ length buffer.now) }
        ensures enough { most self.now ≤ length buffer.now → IsTrue result }
    {
        self.length() <= buffer.len()
    }
}

// The buffer has fewer bytes than are to be written.
#[derive(Clone, Copy, PartialEq, Eq, Debug)]
pub struct ShortBuffer;

// Whether a buffer is long enough for a value, which is measured only if that isn't sure.
fn has_room<E: Encode>(value: &E, buffer: &[u8]) -> bool
    ensures exact { IsTrue result ↔ (length (E.bytes value.now) ≤ length buffer.now) }
    ensures enough { E.most value.now ≤ length buffer.now → IsTrue result }
{
    if value.fits_always(buffer) {
        value.short();
        return true;
    }
    value.fits(buffer)
}

// Writes a value at the start of a buffer, and gives its length. A buffer that is too short stays as it was.
pub fn write<E: Encode>(value: &E, buffer: &mut [u8]) -> Result<usize, ShortBuffer>
    ensures written { WritesAll result buffer.old buffer.new (E.bytes value.now) }
    ensures enough { E.most value.now ≤ length buffer.old → IsOk result }
{
    if !has_room(value, buffer) {
        return Err(ShortBuffer);
    }
    let mut cursor = Cursor::new(buffer);
    value.encode(&mut cursor);
    Ok(cursor.place())
}

#[cfg(test)]
mod tests;
