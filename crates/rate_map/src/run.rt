// Lists of calls on a new map.
ghost use Rattle.std.specs.Prelude.{◌≡◌, map as mapped, MatchResult};
ghost use Rattle.theory.specs.Runs.{answer as answer_of, after as after_of};
ghost use Rattle.rate_map.specs.Values.{map_value};
ghost use Rattle.rate_map.specs.Told.{command};
ghost use Rattle.rate_map.specs.Calls.{Fit};
ghost use Rattle.rate_map.specs.Promise.{Promised, ended_value, chain_of, is_closed};

use crate::call::Call;
use crate::map::{ClosedMap, OpenMap};
use chain::interface::Chain;
use chain::refusal::Refusal;
use std::alloc::{AllocFailed, Global};
use theory::record::{Answer, Reply};
use witness::judge::exceeding::UnsafeWitness;
use witness::judge::safe::SafeWitness;

// One call of a list. The boxes of the map are proper, as those of a map that calls have made are.
fn obey<C: Chain>(map: &mut OpenMap<C>, call: &Call) -> Answer
    requires { Fit (C.meaning map.old.chain) (map_value map.old) }
    ensures answer { result ≡ answer_of (C.meaning map.old.chain) (map_value map.old) (command call.now) }
    ensures value { map_value map.new ≡ after_of (C.meaning map.old.chain) (map_value map.old) (command call.now) }
    ensures chain { map.new.chain ≡ map.old.chain }
{
    Ok(match call {
        Call::LayOut { grid, limit, sides } => {
            map.lay_out(*grid, *limit, sides)?;
            Reply::Done
        }
        Call::Split {
            number,
            rate,
            place,
        } => {
            map.split(*number, *rate, *place)?;
            Reply::Done
        }
        Call::Safe { number, v } => {
            map.witness(*number, &SafeWitness { v })?;
            Reply::Done
        }
        Call::Unsafe { number, v, w } => {
            map.witness(*number, &UnsafeWitness { v, w })?;
            Reply::Done
        }
        Call::Count => Reply::Count(map.count()),
        Call::Find { number } => Reply::Found(map.one(*number)?),
        Call::Measure => Reply::Measured(map.measure()),
    })
}

// The map that a list of calls ends with.
#[derive(Drop)]
pub enum Ended<C> {
    Open(OpenMap<C>),
    Closed(ClosedMap<C>),
}

// What a list of calls came to: the map, and an answer to each call.
#[derive(Drop)]
pub struct Ran<C> {
    pub map: Ended<C>,
    pub answers: Vec<Answer>,
}

fn end<C: Chain>(map: OpenMap<C>, close: bool) -> Ended<C>
    ensures value { ended_value result ≡ map_value map }
    ensures chain { chain_of result ≡ map.chain }
    ensures closed { is_closed result ≡ close }
{
    if close {
        Ended::Closed(map.close())
    } else {
        Ended::Open(map)
    }
}

// Makes a new map over a chain, carries out a list of calls on it, and closes it at the end if `close` says so. Where
// memory is wanting for the answers, the error hands the chain back.
pub fn run<C: Chain>(
    heap: Global,
    chain: C,
    calls: &[Call],
    close: bool,
) -> Result<Ran<C>, AllocFailed<C>>
    ensures { MatchResult result (Promised (C.meaning chain) chain (mapped command calls.now) close) (λ failed. failed.value ≡ chain) }
{
    let mut answers = Vec::new(heap);
    let mut map = OpenMap::new(chain);
    for call in calls {
        let answer = obey(&mut map, call);
        if answers.push(answer).is_err() {
            return Err(AllocFailed {
                value: map.into_chain(),
            });
        }
    }
    Ok(Ran {
        map: end(map, close),
        answers,
    })
}
