use crate::samples::Sample;
use theory::verdict::Verdict;
use witness::judge::Witness;
use witness::judge::exceeding::UnsafeWitness;
use witness::judge::safe::SafeWitness;
use witness::region::{Region, Sides};

// What a judgement came to: a verdict, or the number and the place of a refusal.
type Outcome = Result<Verdict, (u8, u32)>;

// The judgement of a witness for a region on the grid 10.
fn judged<W: Witness>(
    sample: Sample,
    rates: u32,
    low: Sides,
    high: Sides,
    limit: u32,
    witness: &W,
) -> Outcome {
    Region::new(10, rates, low, high)
        .and_then(|region| witness.judge(&sample, &region, limit))
        .map_err(|e| (e.number(), e.place()))
}

// The relay, with rate 0 from 1 to 5 and rate 1 from 2 to 6.
fn relay<W: Witness>(limit: u32, witness: &W) -> Outcome {
    judged(Sample::Relay, 2, [1, 2, 0, 0], [5, 6, 0, 0], limit, witness)
}

fn relay_safe(limit: u32, v: &[u32]) -> Outcome {
    relay(limit, &SafeWitness { v })
}

fn relay_exceeds(limit: u32, v: &[u32], w: &[u32]) -> Outcome {
    relay(limit, &UnsafeWitness { v, w })
}

// The doubled chain, with its rate from 1 to the given number.
fn doubled_safe(top: u32) -> Outcome {
    let witness = SafeWitness { v: &[0, 0] };
    judged(
        Sample::Doubled,
        1,
        [1, 0, 0, 0],
        [top, 0, 0, 0],
        0,
        &witness,
    )
}

#[test]
fn judges_safe_witnesses(rt: HostRuntime) {
    let answers = [
        relay_safe(450000, &[444445, 888889, 1000000, 0]),
        relay_safe(444444, &[444445, 888889, 1000000, 0]),
        relay_safe(450000, &[444444, 888889, 1000000, 0]),
        relay_safe(450000, &[444445, 888888, 1000000, 0]),
    ];
    let expected = [
        Ok(Verdict::Safe { bound: 444445 }),
        Err((21, 0)),
        Err((19, 0)),
        Err((19, 1)),
    ];
    assert_eq!(rt; answers, expected);
}

#[test]
fn judges_unsafe_witnesses(rt: HostRuntime) {
    let v = [42500, 425500, 1000000, 0];
    let never_left = UnsafeWitness {
        v: &[1000000],
        w: &[5],
    };
    let answers = [
        relay_exceeds(40000, &v, &[3, 3, 0, 0]),
        relay_exceeds(42500, &v, &[3, 3, 0, 0]),
        relay_exceeds(40000, &v, &[2, 3, 0, 0]),
        judged(
            Sample::Single,
            1,
            [1, 0, 0, 0],
            [5, 0, 0, 0],
            0,
            &never_left,
        ),
    ];
    let expected = [
        Ok(Verdict::Unsafe {
            bound: 42500,
            steps: 1201,
        }),
        Err((21, 0)),
        Err((20, 0)),
        Err((20, 0)),
    ];
    assert_eq!(rt; answers, expected);
}

#[test]
fn judges_chances(rt: HostRuntime) {
    let expected = [Ok(Verdict::Safe { bound: 0 }), Err((18, 0))];
    assert_eq!(rt; [doubled_safe(5), doubled_safe(6)], expected);
}

#[test]
fn refuses_numbers(rt: HostRuntime) {
    let v = [42500, 425500, 1000000, 0];
    let answers = [
        relay_safe(450000, &[444445, 888889, 999999, 0]),
        relay_safe(450000, &[444445, 888889, 1000000, 1000001]),
        relay_exceeds(40000, &[42500, 425500, 999999, 0], &[3, 3, 0, 0]),
        relay_exceeds(40000, &v, &[3, 1000001, 0, 0]),
    ];
    let expected = [Err((17, 2)), Err((17, 3)), Err((17, 2)), Err((17, 1))];
    assert_eq!(rt; answers, expected);
}

#[test]
fn refuses_lengths(rt: HostRuntime) {
    let v = [42500, 425500, 1000000, 0];
    let answers = [
        relay_safe(450000, &[444445, 888889, 1000000]),
        relay_safe(450000, &[444445, 888889, 1000000, 0, 0]),
        relay_exceeds(40000, &[42500, 425500, 1000000], &[3, 3, 0, 0]),
        relay_exceeds(40000, &v, &[3, 3, 0]),
        relay_exceeds(40000, &v, &[3, 3, 0, 0, 0]),
    ];
    assert_eq!(rt; answers, [Err((16, 0)); 5]);
}

#[test]
fn refuses_regions_of_other_rates(rt: HostRuntime) {
    let v = &[444445, 888889, 1000000, 0];
    let safe = SafeWitness { v };
    let exceeding = UnsafeWitness {
        v,
        w: &[3, 3, 0, 0],
    };
    let (low, high) = ([1, 0, 0, 0], [5, 0, 0, 0]);
    let answers = [
        judged(Sample::Relay, 1, low, high, 450000, &safe),
        judged(Sample::Relay, 3, [1, 2, 1, 0], [5, 6, 2, 0], 450000, &safe),
        judged(Sample::Relay, 1, low, high, 40000, &exceeding),
    ];
    assert_eq!(rt; answers, [Err((7, 0)); 3]);
}
