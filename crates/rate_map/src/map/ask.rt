// Questions: what a map tells of its boxes. They change nothing.
ghost use Rattle.std.specs.Prelude.{◌≡◌, ◌+◌, ◌^◌, ◌≤◌, length};
ghost use Rattle.theory.specs.Maps.{volume as volume_of, volumes as volumes_of, counted, no_volumes, box_answer};
ghost use Rattle.rate_map.specs.Values.{Few, map_value};
ghost use Rattle.rate_map.specs.Calls.{FoundIn};

use crate::map::RateMap;
use chain::interface::Chain;
use chain::refusal::Refusal;
use theory::record::{BoxRecord, Volumes};
use theory::verdict::Verdict;

// The product of the widths.
fn volume(rates: u32, b: &BoxRecord) -> u64
    requires rates { rates ≤ 4 }
    requires few { Few b.now }
    ensures product { result ≡ volume_of rates b.now }
    ensures few { result ≤ 2 ^ 40 }
{
    let mut product = 1;
    for (low, high) in b.low[..rates as usize].iter().zip(&b.high) {
        product *= high.saturating_sub(*low) as u64;
    }
    product
}

// One volume more, under its verdict.
fn count_volume(t: Volumes, verdict: Verdict, n: u64) -> Volumes
    requires few { n ≤ 2 ^ 40 }
    requires safe { t.safe ≤ 2 ^ 62 }
    requires exceeding { t.exceeding ≤ 2 ^ 62 }
    requires pending { t.pending ≤ 2 ^ 62 }
    ensures total { result ≡ counted verdict n t }
    ensures bounds { (result.safe ≤ t.safe + 2 ^ 40) × (result.exceeding ≤ t.exceeding + 2 ^ 40) × (result.pending ≤ t.pending + 2 ^ 40) }
{
    match verdict {
        Verdict::Open => Volumes {
            pending: t.pending + n,
            ..t
        },
        Verdict::Safe { .. } => Volumes {
            safe: t.safe + n,
            ..t
        },
        Verdict::Unsafe { .. } => Volumes {
            exceeding: t.exceeding + n,
            ..t
        },
    }
}

impl<C: Chain, S> RateMap<C, S> {
    // The number of boxes.
    pub fn count(&self) -> u32
        ensures { result ≡ length (map_value self.now).boxes }
    {
        self.table.len() as u32
    }

    // One box; 9 where there is none.
    pub(crate) fn one(&self, number: u32) -> Result<BoxRecord, Refusal>
        ensures { result ≡ box_answer (map_value self.now) number }
    {
        let i = number as usize;
        if i < self.table.len() {
            Ok(self.table.at(i))
        } else {
            Err(Refusal::NoBox)
        }
    }

    // Fills a record with one box; 9 where there is none.
    pub fn find(&self, number: u32, into: &mut BoxRecord) -> Result<(), Refusal>
        ensures { FoundIn (map_value self.now) number into.old result into.new }
    {
        *into = self.one(number)?;
        Ok(())
    }

    // The volumes of the boxes, by verdict.
    pub fn measure(&self) -> Volumes
        ensures { result ≡ volumes_of (C.meaning self.now.chain).rates (map_value self.now).boxes no_volumes }
    {
        let rates = self.chain.rates();
        let mut total = Volumes {
            safe: 0,
            exceeding: 0,
            pending: 0,
        };
        for b in self.table.boxes() {
            total = count_volume(total, b.verdict, volume(rates, b));
        }
        total
    }
}
