// The contents of a file, and its four bodies.
ghost use Rattle.std.specs.Prelude.{◌+◌, ◌*◌, ◌≤◌, [], ◌∷◌};
ghost use Rattle.chain_format.specs.Format.{version1, numbers_length, entry_bytes, contents_bytes, numbers_bytes, marks_bytes, offsets_bytes, rows_bytes, file_of};

use crate::bytes::put_number;
use crate::row::{StateRow, WIDE};
use chain::interface::Chain;
use sink::{Encode, Sink};

const VERSION: u32 = 1;

const SECTIONS: u32 = 4;

// Where the numbers of the chain stand, and where its marks.
const NUMBERS: u32 = 44;

pub(crate) const MARKS: u32 = 51;

// An entry of the contents: the kind of a body, where it stands and how many bytes it has.
fn put_entry<S: Sink>(sink: &mut S, kind: u32, offset: u32, size: u32)
    ensures { S.Takes sink.old (entry_bytes (kind, offset) size) sink.new }
{
    put_number(sink, 2, kind);
    put_number(sink, 4, offset);
    put_number(sink, 4, size)
}

// The contents of a file with so many states and so many bytes of rows.
pub(crate) fn put_contents<S: Sink>(sink: &mut S, states: u32, rows: u32)
    requires { states ≤ 4096 }
    ensures { S.Takes sink.old (contents_bytes version1 (numbers_length version1 ∷ states ∷ 4 * states ∷ rows ∷ [])) sink.new }
{
    let offsets = MARKS + states;
    put_number(sink, 2, VERSION);
    put_number(sink, 2, SECTIONS);
    put_entry(sink, 1, NUMBERS, MARKS - NUMBERS);
    put_entry(sink, 2, MARKS, states);
    put_entry(sink, 3, offsets, 4 * states);
    put_entry(sink, 4, offsets + 4 * states, rows)
}

pub(crate) fn put_numbers<C: Chain, S: Sink>(chain: &C, sink: &mut S)
    ensures { S.Takes sink.old (numbers_bytes version1 (file_of (C.meaning chain.now)).numbers) sink.new }
{
    put_number(sink, WIDE, chain.states());
    put_number(sink, 1, chain.rates());
    put_number(sink, 2, chain.unit());
    put_number(sink, WIDE, chain.start())
}

pub(crate) fn put_marks<C: Chain, S: Sink>(chain: &C, sink: &mut S)
    ensures { S.Takes sink.old (marks_bytes (file_of (C.meaning chain.now)).marks) sink.new }
{
    for state in 0..chain.states() {
        if let Ok(mark) = chain.mark(state) {
            put_number(sink, 1, mark as u32);
        }
    }
}

// The offset of each row: how many bytes those before it have.
pub(crate) fn put_offsets<C: Chain, S: Sink>(chain: &C, sink: &mut S)
    ensures { S.Takes sink.old (offsets_bytes version1 (file_of (C.meaning chain.now)).rows) sink.new }
{
    let mut offset = 0;
    for state in 0..chain.states() {
        put_number(sink, 4, offset);
        offset += StateRow { chain, state }.length() as u32;
    }
}

// All rows of a chain.
#[derive(Drop)]
pub(crate) struct Rows<'a, C> {
    pub(crate) chain: &'a C,
}

impl<C: Chain> Encode for Rows<'_, C> {
    ghost bytes = { λ r. rows_bytes version1 (file_of (C.meaning r.chain.now)).rows };

    ghost most = { λ r. 149 * (C.meaning r.chain.now).states };

    fn encode<S: Sink>(&self, sink: &mut S) {
        let chain = self.chain;
        for state in 0..chain.states() {
            StateRow { chain, state }.encode(sink);
        }
    }

    fn length(&self) -> usize {
        let chain = self.chain;
        let mut size = 0;
        for state in 0..chain.states() {
            size += StateRow { chain, state }.length();
        }
        size
    }
}
