// What a map holds and answers.
use crate::verdict::Verdict;
use chain::refusal::Refusal;

// A box of a map: a low and a high grid number for each rate, 0 where the chain has no such rate, and its verdict.
#[derive(Clone, Copy, Debug, Default, PartialEq, Eq)]
pub struct BoxRecord {
    pub low: [u32; 4],
    pub high: [u32; 4],
    pub verdict: Verdict,
}

// The volumes of the boxes of a map, by verdict: safe, unsafe and open.
#[derive(Clone, Copy, Debug, PartialEq, Eq)]
pub struct Volumes {
    pub safe: u64,
    pub exceeding: u64,
    pub pending: u64,
}

// What a call of a map tells that is taken.
#[derive(Clone, Copy, Debug, PartialEq, Eq)]
pub enum Reply {
    Done,
    Count(u32),
    Found(BoxRecord),
    Measured(Volumes),
}

// The answer to a call of a map.
pub type Answer = Result<Reply, Refusal>;
