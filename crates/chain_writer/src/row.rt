// A row, from the record that a chain fills.
ghost use Rattle.std.specs.Prelude.{◌≡◌, ◌<◌, ◌≤◌};
ghost use Rattle.chain.specs.Filled.{filled};
ghost use Rattle.chain_format.specs.Format.{version1, row_bytes};
ghost use Rattle.chain_writer.specs.Wrote.{edge_record_bytes, record_bytes, record_length};

use crate::bytes::put_number;
use chain::interface::Chain;
use chain::record::{EdgeRecord, NO_ROW, RowRecord};
use sink::{Encode, Sink};

// How many bytes the number of a state takes.
pub(crate) const WIDE: usize = 2;

// The coefficients are signed numbers, in two's complement.
fn put_edge<S: Sink>(sink: &mut S, edge: &EdgeRecord, size: usize)
    requires { size ≤ 8 }
    ensures { S.Takes sink.old (edge_record_bytes version1 size edge.now) sink.new }
{
    put_number(sink, WIDE, edge.successor);
    let coefficients = edge.coefficients.map(i16::to_le_bytes);
    sink.put(coefficients[..size].as_flattened())
}

fn put_row<S: Sink>(sink: &mut S, row: &RowRecord)
    requires { row.now.rate_count ≤ 3 }
    ensures { S.Takes sink.old (record_bytes version1 row.now) sink.new }
{
    let size = 2usize.pow(row.rate_count as u32);
    put_number(sink, 1, row.rate_count as u32);
    sink.put(row.rates());
    put_number(sink, 1, row.edge_count as u32);
    for edge in row.edges() {
        put_edge(sink, edge, size);
    }
}

// How many bytes a row takes.
fn row_length(row: &RowRecord) -> usize
    requires rates { row.now.rate_count ≤ 3 }
    requires edges { row.now.edge_count ≤ 8 }
    ensures { result ≡ record_length version1 row.now }
{
    let rates = row.rate_count as usize;
    2 + rates + (WIDE + (2 << rates)) * row.edge_count as usize
}

// The row of a state that the chain has.
#[derive(Drop)]
pub(crate) struct StateRow<'a, C: Chain> {
    pub(crate) chain: &'a C,
    pub(crate) state: u32,
    ghost within: { state < (C.meaning chain.now).states },
}

impl<C: Chain> StateRow<'_, C> {
    fn record(&self) -> RowRecord
        ensures { result ≡ filled ((C.meaning self.now.chain.now).row self.now.state) }
    {
        let mut row = NO_ROW;
        let _ = self.chain.row(self.state, &mut row);
        row
    }
}

impl<C: Chain> Encode for StateRow<'_, C> {
    ghost bytes = { λ r. row_bytes version1 ((C.meaning r.chain.now).row r.state) };

    ghost most = { λ _. 149 };

    fn encode<S: Sink>(&self, sink: &mut S) {
        put_row(sink, &self.record())
    }

    fn length(&self) -> usize {
        row_length(&self.record())
    }
}
