// Whole jobs: the calls of a script, and what is tried first.
use crate::prints::{FILE, job_prints, prints};
use job::map_job;
use std::test::Fail;

#[test]
fn the_worked_example(rt: HostRuntime) -> Result<(), Fail> {
    let heap = rt.alloc();
    prints(
        &rt,
        heap,
        b"L 10 450000 1 5 2 6\nC 0 0 3\nS 0 0\nS 1 444445 888889 1000000 0\nE\n",
        b"ok\nok\nrefused 16 0\nok\n0 1 3 2 6 open\n1 3 5 2 6 safe 444445\n8 0 8\n",
    )
}

#[test]
fn an_unsafe_box(rt: HostRuntime) -> Result<(), Fail> {
    let heap = rt.alloc();
    prints(
        &rt,
        heap,
        b"L 10 40000 1 5 2 6\nU 0 42500 425500 1000000 0 3 3 0 0\nQ 0\nU 0 42500 425500 1000000 0 3 3 0 0\nE",
        b"ok\nok\n0 1 5 2 6 unsafe 42500 1201\nrefused 10 0\n0 1 5 2 6 unsafe 42500 1201\n0 16 0\n",
    )
}

#[test]
fn numbers_of_an_unsafe_witness(rt: HostRuntime) -> Result<(), Fail> {
    let heap = rt.alloc();
    prints(
        &rt,
        heap,
        b"U 0\nU 0 1 2 3\nU 0 1 2 1000000 4\n",
        b"refused 16 0\nrefused 16 0\nrefused 16 0\n",
    )?;
    prints(
        &rt,
        heap,
        b"U 0 1 2 3 4 5 6 7\nU 0 1 2 3 4 5 6 7 8 9\n",
        b"refused 16 0\nrefused 16 0\n",
    )?;
    prints(
        &rt,
        heap,
        b"U 0 1 2 3 4 5 6 7 8\nU 1 1\n",
        b"refused 17 2\nrefused 9 0\n",
    )
}

#[test]
fn a_refused_line_changes_nothing(rt: HostRuntime) -> Result<(), Fail> {
    let heap = rt.alloc();
    prints(
        &rt,
        heap,
        b"L 10 450000 1 5 2 6\nL 0 1 0 1 0 1\nL 10 450000 5 1 2 6\nC 0 0 1\nC 0 2 3\nC 1 0 3\nbad\nE\n",
        b"ok\nrefused 6 0\nrefused 7 0\nrefused 11 0\nrefused 11 0\nrefused 9 0\nrefused 23 0\n0 1 5 2 6 open\n0 0 16\n",
    )
}

#[test]
fn the_file_comes_first(rt: HostRuntime) -> Result<(), Fail> {
    let heap = rt.alloc();
    job_prints(&rt, heap, b"", b"E\n", b"refused 1 0\n")?;
    let mut bad = *FILE;
    bad[53] = 2;
    job_prints(&rt, heap, &bad, b"", b"refused 3 53\n")?;
    bad[53] = 1;
    bad[78] = 2;
    job_prints(&rt, heap, &bad, b"nothing\n", b"refused 5 71\n")?;
    let long = vec![in heap; 0u8; 65537]?;
    job_prints(&rt, heap, &long, &long, b"refused 22 0\n")?;
    job_prints(&rt, heap, &long, b"E\n", b"refused 22 0\n")?;
    job_prints(&rt, heap, b"\x01\x00", &long, b"refused 1 2\n")?;
    prints(&rt, heap, &long, b"refused 22 0\n")
}

#[test]
fn the_longest_script(rt: HostRuntime) -> Result<(), Fail> {
    let heap = rt.alloc();
    let mut lines = vec![in heap; 10u8; 65536]?;
    let refused = map_job(heap, FILE, &lines)?;
    assert_eq!(rt; refused.len(), 65536 * 13);
    lines.push(10)?;
    prints(&rt, heap, &lines, b"refused 22 0\n")
}
