// What is printed for a script, over a file.
use job::map_job;
use std::alloc::Global;
use std::process::Abort;
use std::test::Fail;

// Four states, two rates and the unit 1; state 0 is the start and state 2 is bad. Row 0 leads to 1 with rate 0 and to 3
// with one less rate 0, row 1 to 0 with rate 1 and to 2 with one less rate 1; states 2 and 3 loop.
pub(crate) const FILE: &[u8; 113] =
    b"\x01\x00\x04\x00\x01\x00\x2c\x00\x00\x00\x07\x00\x00\x00\x02\x00\x33\x00\x00\x00\x04\x00\x00\x00\x03\x00\x37\x00\x00\x00\x10\x00\x00\x00\x04\x00\x47\x00\x00\x00\x2a\x00\x00\x00\x04\x00\x02\x01\x00\x00\x00\x00\x00\x01\x00\x00\x00\x00\x00\x0f\x00\x00\x00\x1e\x00\x00\x00\x24\x00\x00\x00\x01\x00\x02\x01\x00\x00\x00\x01\x00\x03\x00\x01\x00\xff\xff\x01\x01\x02\x00\x00\x00\x00\x01\x00\x02\x00\x01\x00\xff\xff\x00\x01\x02\x00\x01\x00\x00\x01\x03\x00\x01\x00";

// Whether the script prints this over a file.
pub(crate) fn job_prints(
    rt: &impl Abort,
    heap: Global,
    file: &[u8],
    script: &[u8],
    output: &[u8],
) -> Result<(), Fail> {
    let bytes = map_job(heap, file, script)?;
    assert_eq!(rt; bytes.as_slice(), output);
    Ok(())
}

// Whether the script prints this over the four states.
pub(crate) fn prints(
    rt: &impl Abort,
    heap: Global,
    script: &[u8],
    output: &[u8],
) -> Result<(), Fail> {
    job_prints(rt, heap, FILE, script, output)
}

// Whether the script is one line that has not the form of a call.
pub(crate) fn no_form(rt: &impl Abort, heap: Global, script: &[u8]) -> Result<(), Fail> {
    prints(rt, heap, script, b"refused 23 0\n")
}
