// What the tests share: maps over the relay to begin with, and what calls answer and maps show as values that can be
// compared.
use chain::refusal::Refusal;
use rate_map::map::{OpenMap, RateMap};
use theory::record::{BoxRecord, Volumes};
use theory::verdict::Verdict;
use witness::judge::exceeding::UnsafeWitness;
use witness::judge::safe::SafeWitness;
use worked::samples::Sample;

// A safe and an unsafe witness of the relay.
pub(crate) const SAFE: SafeWitness<'static> = SafeWitness {
    v: &[444445, 888889, 1000000, 0],
};

pub(crate) const EXCEEDING: UnsafeWitness<'static> = UnsafeWitness {
    v: &[42500, 425500, 1000000, 0],
    w: &[3, 3, 0, 0],
};

// A record that no box of the tests is like.
pub(crate) const BLANK: BoxRecord = BoxRecord {
    low: [7, 7, 7, 7],
    high: [9, 9, 9, 9],
    verdict: Verdict::Open,
};

// A box as a map of the relay has it, with its sides in the two rates as lay out is given them.
pub(crate) fn boxed(sides: [u32; 4], verdict: Verdict) -> BoxRecord {
    BoxRecord {
        low: [sides[0], sides[2], 0, 0],
        high: [sides[1], sides[3], 0, 0],
        verdict,
    }
}

// What a map shows: the number of its boxes, the first two of them (BLANK where there is none), and its volumes.
#[derive(Clone, Copy, PartialEq, Debug)]
pub(crate) struct View {
    pub(crate) count: u32,
    pub(crate) first: BoxRecord,
    pub(crate) second: BoxRecord,
    pub(crate) volumes: Volumes,
}

pub(crate) fn shown<S>(map: &RateMap<Sample, S>) -> View {
    let mut first = BLANK;
    let mut second = BLANK;
    let _ = map.find(0, &mut first);
    let _ = map.find(1, &mut second);
    View {
        count: map.count(),
        first,
        second,
        volumes: map.measure(),
    }
}

// An answer, with a refusal as its number and its place.
pub(crate) fn told<T>(answer: Result<T, Refusal>) -> Result<T, (u8, u32)> {
    answer.map_err(|refusal| (refusal.number(), refusal.place()))
}

// A map over the relay on the grid 10, with rate 0 from 1 to 5 and rate 1 from 2 to 6.
pub(crate) fn field(limit: u32) -> OpenMap<Sample> {
    let mut map = OpenMap::new(Sample::Relay);
    let _ = map.lay_out(10, limit, &[1, 5, 2, 6]);
    map
}

// What that map shows, when nothing else was called.
pub(crate) fn whole_field() -> View {
    View {
        count: 1,
        first: boxed([1, 5, 2, 6], Verdict::Open),
        second: BLANK,
        volumes: Volumes {
            safe: 0,
            exceeding: 0,
            pending: 16,
        },
    }
}
