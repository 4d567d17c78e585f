// The calls that change a map, where they are taken.
use crate::shown::{BLANK, EXCEEDING, SAFE, View, boxed, field, shown, told, whole_field};
use chain::interface::Chain;
use rate_map::map::OpenMap;
use theory::record::Volumes;
use theory::verdict::Verdict;
use witness::judge::safe::SafeWitness;
use worked::samples::Sample;

// What a cut of rate 0 answers on the field.
fn cut(place: u32) -> Result<(), (u8, u32)> {
    let mut map = field(450000);
    told(map.split(0, 0, place))
}

#[test]
fn cuts_between_the_sides(rt: HostRuntime) {
    assert_eq!(rt; [cut(2), cut(4)], [Ok(()); 2]);
    assert_eq!(rt; [cut(1), cut(5)], [Err((11, 0)); 2]);
}

#[test]
fn lays_out_again(rt: HostRuntime) {
    let mut map = field(450000);
    let before = shown(&map);
    let answer = told(map.lay_out(20, 5, &[0, 20, 3, 4]));
    let after = shown(&map);
    let expected = View {
        count: 1,
        first: boxed([0, 20, 3, 4], Verdict::Open),
        second: BLANK,
        volumes: Volumes {
            safe: 0,
            exceeding: 0,
            pending: 20,
        },
    };
    assert_eq!(rt; before, whole_field());
    assert_eq!(rt; answer, Ok(()));
    assert_eq!(rt; after, expected);
}

#[test]
fn judges_the_worked_example(rt: HostRuntime) {
    let mut map = field(450000);
    let answers = [
        told(map.split(0, 0, 3)),
        told(map.witness(0, &SafeWitness { v: &[444445] })),
        told(map.witness(1, &SAFE)),
    ];
    let after = shown(&map);
    let expected = View {
        count: 2,
        first: boxed([1, 3, 2, 6], Verdict::Open),
        second: boxed([3, 5, 2, 6], Verdict::Safe { bound: 444445 }),
        volumes: Volumes {
            safe: 8,
            exceeding: 0,
            pending: 8,
        },
    };
    assert_eq!(rt; answers, [Ok(()), Err((16, 0)), Ok(())]);
    assert_eq!(rt; after, expected);
}

#[test]
fn judges_a_box_unsafe(rt: HostRuntime) {
    let mut map = field(40000);
    let answer = told(map.witness(0, &EXCEEDING));
    let after = shown(&map);
    let expected = View {
        count: 1,
        first: boxed(
            [1, 5, 2, 6],
            Verdict::Unsafe {
                bound: 42500,
                steps: 1201,
            },
        ),
        second: BLANK,
        volumes: Volumes {
            safe: 0,
            exceeding: 16,
            pending: 0,
        },
    };
    assert_eq!(rt; answer, Ok(()));
    assert_eq!(rt; after, expected);
}

// Cuts the last box of a map at 1, 2 .. 127 of rate 0; whether every cut was taken.
fn cut_often(map: &mut OpenMap<Sample>) -> bool {
    (0..127).all(|last| map.split(last, 0, last + 1).is_ok())
}

#[test]
fn holds_128_boxes(rt: HostRuntime) {
    let mut map = OpenMap::new(Sample::Relay);
    let laid = told(map.lay_out(1000, 0, &[0, 1000, 0, 1000]));
    let all = cut_often(&mut map);
    let full = shown(&map);
    let answers = [
        told(map.split(127, 0, 500)),
        told(map.split(127, 1, 500)),
        told(map.split(127, 0, 127)),
        told(map.split(128, 0, 500)),
    ];
    let after = shown(&map);
    let mut last = BLANK;
    let found = told(map.find(127, &mut last));
    let expected = View {
        count: 128,
        first: boxed([0, 1, 0, 1000], Verdict::Open),
        second: boxed([1, 2, 0, 1000], Verdict::Open),
        volumes: Volumes {
            safe: 0,
            exceeding: 0,
            pending: 1000000,
        },
    };
    assert!(rt; all);
    assert_eq!(rt; [laid, found], [Ok(()); 2]);
    assert_eq!(rt; full, expected);
    assert_eq!(rt;
        answers,
        [Err((12, 0)), Err((12, 0)), Err((11, 0)), Err((9, 0))]
    );
    assert_eq!(rt; after, expected);
    assert_eq!(rt; last, boxed([127, 1000, 0, 1000], Verdict::Open));
}

#[test]
fn gives_the_chain_back(rt: HostRuntime) {
    let open = field(450000);
    let closed = field(450000).close();
    let chains = [open.into_chain(), closed.into_chain()];
    assert_eq!(rt; [chains[0].states(), chains[1].states()], [4; 2]);
}
