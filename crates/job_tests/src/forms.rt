// The forms of lines.
use crate::prints::{no_form, prints};
use std::test::Fail;

#[test]
fn too_few_numbers(rt: HostRuntime) -> Result<(), Fail> {
    let heap = rt.alloc();
    no_form(&rt, heap, b"L\n")?;
    no_form(&rt, heap, b"L 10\n")?;
    no_form(&rt, heap, b"C\n")?;
    no_form(&rt, heap, b"C 0\n")?;
    no_form(&rt, heap, b"C 0 0\n")?;
    no_form(&rt, heap, b"S\n")?;
    no_form(&rt, heap, b"U\n")?;
    no_form(&rt, heap, b"Q\n")
}

#[test]
fn too_many_numbers(rt: HostRuntime) -> Result<(), Fail> {
    let heap = rt.alloc();
    no_form(&rt, heap, b"C 0 0 3 4\n")?;
    no_form(&rt, heap, b"Q 0 0\n")?;
    no_form(&rt, heap, b"E 0\n")?;
    prints(&rt, heap, b"L 10 450000 1 5 2 6 1 2\n", b"refused 7 0\n")?;
    prints(&rt, heap, b"L 10 450000\n", b"refused 7 0\n")?;
    prints(&rt, heap, b"S 0 1 2 3 4 5\n", b"refused 16 0\n")
}

#[test]
fn sizes_of_numbers(rt: HostRuntime) -> Result<(), Fail> {
    let heap = rt.alloc();
    prints(&rt, heap, b"Q 4294967295\n", b"refused 9 0\n")?;
    no_form(&rt, heap, b"Q 4294967296\n")?;
    no_form(&rt, heap, b"Q 9999999999\n")?;
    prints(&rt, heap, b"Q 0000000000\n", b"0 0 1 0 1 open\n")?;
    no_form(&rt, heap, b"Q 00000000000\n")?;
    no_form(&rt, heap, b"Q 12345678901\n")?;
    no_form(&rt, heap, b"S 0 1 2 3 4294967296\n")
}

#[test]
fn spaces(rt: HostRuntime) -> Result<(), Fail> {
    let heap = rt.alloc();
    no_form(&rt, heap, b"Q  0\n")?;
    no_form(&rt, heap, b"Q 0 \n")?;
    no_form(&rt, heap, b" Q 0\n")?;
    no_form(&rt, heap, b"Q0\n")?;
    no_form(&rt, heap, b"Q\t0\n")?;
    no_form(&rt, heap, b"Q 0\t\n")?;
    no_form(&rt, heap, b"Q 0\r\n")?;
    no_form(&rt, heap, b"E \n")
}

#[test]
fn letters(rt: HostRuntime) -> Result<(), Fail> {
    let heap = rt.alloc();
    no_form(&rt, heap, b"q 0\n")?;
    no_form(&rt, heap, b"e\n")?;
    no_form(&rt, heap, b"X\n")?;
    no_form(&rt, heap, b"QQ 0\n")?;
    no_form(&rt, heap, b"\xc5 0\n")?;
    no_form(&rt, heap, b"\n")
}

#[test]
fn malformed_numbers(rt: HostRuntime) -> Result<(), Fail> {
    let heap = rt.alloc();
    no_form(&rt, heap, b"Q -1\n")?;
    no_form(&rt, heap, b"Q +1\n")?;
    no_form(&rt, heap, b"Q 0x1\n")?;
    no_form(&rt, heap, b"Q 1.0\n")?;
    no_form(&rt, heap, b"L 10 450000 1 5 2 six\n")?;
    no_form(&rt, heap, b"C 0 0 3/\n")?;
    no_form(&rt, heap, b"S 0 :\n")
}

#[test]
fn ends_of_scripts(rt: HostRuntime) -> Result<(), Fail> {
    let heap = rt.alloc();
    prints(&rt, heap, b"", b"")?;
    prints(&rt, heap, b"Q 0", b"0 0 1 0 1 open\n")?;
    prints(&rt, heap, b"Q 0\n\n", b"0 0 1 0 1 open\nrefused 23 0\n")?;
    prints(&rt, heap, b"E", b"0 0 1 0 1 open\n0 0 1\n")?;
    prints(&rt, heap, b"E\nQ 0\nX\n", b"0 0 1 0 1 open\n0 0 1\n")
}
