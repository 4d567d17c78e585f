// The record that a chain fills with one of its rows.
ghost use Rattle.std.specs.Prelude.{◌≡◌, length, take};
ghost use Rattle.chain.specs.Chains.{looping};
ghost use Rattle.chain.specs.Filled.{filled};

// The most rates that a row names, the most edges that it has, and the most coefficients of an edge.
pub const RATES: usize = 3;

pub const EDGES: usize = 8;

pub const COEFFICIENTS: usize = 8;

// An edge: the state that it leads to, and the coefficients of its chance.
#[derive(Clone, Copy, Debug, PartialEq, Eq)]
pub struct EdgeRecord {
    pub successor: u32,
    pub coefficients: [i16; COEFFICIENTS],
}

// A row: its rates, then its edges, each with how many are used. What is not used is 0.
#[derive(Clone, Copy, Debug, PartialEq, Eq)]
pub struct RowRecord {
    pub rate_count: u8,
    pub rates: [u8; RATES],
    pub edge_count: u8,
    pub edges: [EdgeRecord; EDGES],
}

pub const NO_EDGE: EdgeRecord = EdgeRecord {
    successor: 0,
    coefficients: [0; COEFFICIENTS],
};

pub const NO_ROW: RowRecord = RowRecord {
    rate_count: 0,
    rates: [0; RATES],
    edge_count: 0,
    edges: [NO_EDGE; EDGES],
};

impl RowRecord {
    // The row of a state that no step leaves, where coefficients are whole chances.
    pub fn looping(state: u32) -> RowRecord
        ensures { result ≡ filled (looping 1 state) }
    {
        let mut row = NO_ROW;
        row.edge_count = 1;
        row.edges[0].successor = state;
        row.edges[0].coefficients[0] = 1;
        row
    }

    // The rates that the row names.
    pub fn rates(&self) -> &[u8]
        ensures { result.now ≡ take self.now.rate_count self.now.rates }
    {
        let named = self.rate_count as usize;
        &self.rates[..named.min(RATES)]
    }

    // The edges that the row has.
    pub fn edges(&self) -> &[EdgeRecord]
        ensures { result.now ≡ take self.now.edge_count self.now.edges }
    {
        let led = self.edge_count as usize;
        &self.edges[..led.min(EDGES)]
    }
}
