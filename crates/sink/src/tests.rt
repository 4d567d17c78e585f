ghost use Rattle.std.specs.Prelude.{◌+◌, ◌++◌, length};

use crate::{Encode, ShortBuffer, Sink, write};

// Two runs of bytes.
#[derive(Drop)]
struct Runs([u8; 3], [u8; 2]);

impl Encode for Runs {
    ghost bytes = { λ r. r.0 ++ r.1 };

    ghost most = { λ r. length r.0 + length r.1 };

    fn encode<S: Sink>(&self, sink: &mut S) {
        sink.put(&self.0);
        sink.put(&self.1);
    }
}

#[test]
fn writes_all(rt: HostRuntime) {
    let runs = Runs(*b"abc", *b"de");
    assert_eq!(rt; runs.length(), 5);
    let mut buffer = [120; 6];
    assert_eq!(rt; write(&runs, &mut buffer), Ok(5));
    assert_eq!(rt; buffer, *b"abcdex");
}

#[test]
fn writes_nothing_to_a_short_buffer(rt: HostRuntime) {
    let mut buffer = [120; 4];
    assert_eq!(rt;
        write(&Runs(*b"abc", *b"de"), &mut buffer),
        Err(ShortBuffer)
    );
    assert_eq!(rt; buffer, [120; 4]);
}
