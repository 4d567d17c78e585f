// The file of a chain.
ghost use Rattle.std.specs.Prelude.{◌≡◌, ◌+◌, ◌*◌, length};
ghost use Rattle.chain.specs.Chains.{most_states};
ghost use Rattle.chain_format.specs.Format.{version1, rows_bytes, file_of, encode};

use crate::sections::{MARKS, Rows, put_contents, put_marks, put_numbers, put_offsets};
use chain::interface::Chain;
use sink::{Encode, Sink};

// The file of a chain, and how many bytes its rows have, which its contents tell.
#[derive(Drop)]
pub(crate) struct File<'a, C: Chain> {
    chain: &'a C,
    rows: u32,
    ghost measured: { rows ≡ length (rows_bytes version1 (file_of (C.meaning chain.now)).rows) },
}

impl<'a, C: Chain> File<'a, C> {
    pub(crate) fn of(chain: &'a C) -> File<'a, C>
        ensures { result.chain.now ≡ chain.now }
    {
        let rows = Rows { chain }.length() as u32;
        File { chain, rows }
    }
}

impl<C: Chain> Encode for File<'_, C> {
    ghost bytes = { λ f. encode (C.meaning f.chain.now) };

    ghost most = { λ _. 51 + 154 * most_states };

    fn encode<S: Sink>(&self, sink: &mut S) {
        let chain = self.chain;
        put_contents(sink, chain.states(), self.rows);
        put_numbers(chain, sink);
        put_marks(chain, sink);
        put_offsets(chain, sink);
        Rows { chain }.encode(sink)
    }

    fn length(&self) -> usize {
        (MARKS + 5 * self.chain.states() + self.rows) as usize
    }
}
