use crate::{write_answer, write_box, write_sheet};
use chain::refusal::Refusal;
use theory::record::{BoxRecord, Reply, Volumes};
use theory::verdict::Verdict;

// What a call answered: the length, or the number of its refusal.
fn plain(answer: Result<usize, Refusal>) -> Result<usize, u8> {
    answer.map_err(|refusal| refusal.number())
}

// The sheet of two boxes with two rates, in a buffer.
fn two_boxes(buffer: &mut [u8]) -> Result<usize, u8> {
    let boxes = [
        BoxRecord {
            low: [1, 2, 0, 0],
            high: [3, 6, 0, 0],
            verdict: Verdict::Open,
        },
        BoxRecord {
            low: [3, 2, 0, 0],
            high: [5, 6, 0, 0],
            verdict: Verdict::Safe { bound: 444445 },
        },
    ];
    let volumes = Volumes {
        safe: 8,
        exceeding: 0,
        pending: 8,
    };
    plain(write_sheet(2, &boxes, &volumes, buffer))
}

#[test]
fn writes_a_sheet(rt: HostRuntime) {
    let mut buffer = [120; 45];
    assert_eq!(rt; two_boxes(&mut buffer), Ok(43));
    assert_eq!(rt;
        buffer,
        *b"0 1 3 2 6 open\n1 3 5 2 6 safe 444445\n8 0 8\nxx"
    );
    let mut short = [120; 42];
    assert_eq!(rt; two_boxes(&mut short), Err(15));
    assert_eq!(rt; short, [120; 42]);
}

const EXCEEDING: BoxRecord = BoxRecord {
    low: [0, 1, 2, 3],
    high: [10, 11, 12, 13],
    verdict: Verdict::Unsafe {
        bound: 42500,
        steps: 18446744073709551615,
    },
};

#[test]
fn writes_a_box(rt: HostRuntime) {
    let mut buffer = [120; 64];
    assert_eq!(rt; plain(write_box(100, 5, &EXCEEDING, &mut buffer)), Ok(58));
    assert_eq!(rt;
        buffer,
        *b"100 0 10 1 11 2 12 3 13 unsafe 42500 18446744073709551615\nxxxxxx"
    );
}

#[test]
fn writes_a_box_as_an_answer(rt: HostRuntime) {
    let mut buffer = [120; 64];
    assert_eq!(rt;
        plain(write_answer(100, 5, &Ok(Reply::Found(EXCEEDING)), &mut buffer)),
        Ok(58)
    );
    assert_eq!(rt;
        buffer,
        *b"100 0 10 1 11 2 12 3 13 unsafe 42500 18446744073709551615\nxxxxxx"
    );
}

#[test]
fn writes_answers(rt: HostRuntime) {
    let mut buffer = [120; 16];
    assert_eq!(rt;
        plain(write_answer(0, 2, &Ok(Reply::Done), &mut buffer)),
        Ok(3)
    );
    assert_eq!(rt; buffer, *b"ok\nxxxxxxxxxxxxx");
    let refused = Err(Refusal::BadBound(17));
    assert_eq!(rt; plain(write_answer(0, 2, &refused, &mut buffer)), Ok(14));
    assert_eq!(rt; buffer, *b"refused 19 17\nxx");
    let mut short = [120; 13];
    assert_eq!(rt; plain(write_answer(0, 2, &refused, &mut short)), Err(15));
    assert_eq!(rt; short, [120; 13]);
}
