// Lists of calls, and the maps that they end with.
use crate::shown::{BLANK, View, boxed, shown, told};
use rate_map::call::Call;
use rate_map::run::{Ended, Ran, run};
use std::alloc::Global;
use std::test::Fail;
use theory::record::{Answer, Reply, Volumes};
use theory::verdict::Verdict;
use worked::samples::Sample;

// Whether the map at the end is closed, and what it shows.
fn ended(map: Ended<Sample>) -> (bool, View) {
    match map {
        Ended::Open(map) => (false, shown(&map)),
        Ended::Closed(map) => (true, shown(&map)),
    }
}

// What a list of calls on a map over the relay came to: whether the map is closed, what it shows, and the answers.
fn ran(heap: Global, calls: &[Call], close: bool) -> Result<((bool, View), Vec<Answer>), Fail> {
    let Ran { map, answers } = run(heap, Sample::Relay, calls, close)?;
    Ok((ended(map), answers))
}

// The calls of the worked example.
fn worked_example<'a>(sides: &'a [u32], short: &'a [u32], v: &'a [u32]) -> [Call<'a>; 6] {
    [
        Call::LayOut {
            grid: 10,
            limit: 450000,
            sides,
        },
        Call::Split {
            number: 0,
            rate: 0,
            place: 3,
        },
        Call::Safe {
            number: 0,
            v: short,
        },
        Call::Safe { number: 1, v },
        Call::Find { number: 1 },
        Call::Measure,
    ]
}

#[test]
fn runs_the_worked_example(rt: HostRuntime) -> Result<(), Fail> {
    let calls = worked_example(&[1, 5, 2, 6], &[444445], &[444445, 888889, 1000000, 0]);
    let (end, answers) = ran(rt.alloc(), &calls, true)?;
    let safe = boxed([3, 5, 2, 6], Verdict::Safe { bound: 444445 });
    let volumes = Volumes {
        safe: 8,
        exceeding: 0,
        pending: 8,
    };
    let expected = View {
        count: 2,
        first: boxed([1, 3, 2, 6], Verdict::Open),
        second: safe,
        volumes,
    };
    assert_eq!(rt; end, (true, expected));
    assert!(rt; answers.len() == 6);
    assert_eq!(rt;
        [told(answers[0]), told(answers[1]), told(answers[2])],
        [Ok(Reply::Done), Ok(Reply::Done), Err((16, 0))]
    );
    assert_eq!(rt;
        [told(answers[3]), told(answers[4]), told(answers[5])],
        [
            Ok(Reply::Done),
            Ok(Reply::Found(safe)),
            Ok(Reply::Measured(volumes))
        ]
    );
    Ok(())
}

#[test]
fn runs_no_calls(rt: HostRuntime) -> Result<(), Fail> {
    let calls = worked_example(&[], &[], &[]);
    let (end, answers) = ran(rt.alloc(), &calls[..0], false)?;
    let volumes = Volumes {
        safe: 0,
        exceeding: 0,
        pending: 1,
    };
    let expected = View {
        count: 1,
        first: boxed([0, 1, 0, 1], Verdict::Open),
        second: BLANK,
        volumes,
    };
    assert_eq!(rt; answers.len(), 0);
    assert_eq!(rt; end, (false, expected));
    Ok(())
}
