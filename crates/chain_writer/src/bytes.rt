// Numbers put into a sink, low byte first.
ghost use Rattle.std.specs.Prelude.{◌≤◌};
ghost use Rattle.chain_format.specs.Reader.{bytes_of};

use sink::Sink;

pub(crate) fn put_number<S: Sink>(sink: &mut S, width: usize, value: u32)
    requires { width ≤ 4 }
    ensures { S.Takes sink.old (bytes_of width value) sink.new }
{
    for byte in &value.to_le_bytes()[..width] {
        sink.put_byte(*byte);
    }
}
