// The refusals 6 to 11: the call answers the number, and the map shows what it showed before.
use crate::shown::{BLANK, EXCEEDING, SAFE, field, shown, told, whole_field};
use rate_map::map::OpenMap;
use worked::samples::Sample;

// The field, judged safe.
fn judged() -> OpenMap<Sample> {
    let mut map = field(450000);
    let _ = map.witness(0, &SAFE);
    map
}

#[test]
fn refuses_grids_and_limits(rt: HostRuntime) {
    let mut map = field(450000);
    let answers = [
        told(map.lay_out(0, 450000, &[1, 5, 2, 6])),
        told(map.lay_out(1001, 450000, &[1, 5, 2, 6])),
        told(map.lay_out(10, 1000001, &[1, 5, 2, 6])),
    ];
    let after = shown(&map);
    assert_eq!(rt; answers, [Err((6, 0)); 3]);
    assert_eq!(rt; after, whole_field());
}

// The grid and the limit stay as well: a witness for them is still taken.
#[test]
fn refuses_fields(rt: HostRuntime) {
    let mut map = field(450000);
    let answers = [
        told(map.lay_out(20, 7, &[1, 5])),
        told(map.lay_out(20, 7, &[1, 5, 2, 6, 0, 1])),
        told(map.lay_out(20, 7, &[1, 5, 2, 2])),
        told(map.lay_out(20, 7, &[1, 21, 2, 6])),
    ];
    let after = shown(&map);
    let taken = told(map.witness(0, &SAFE));
    assert_eq!(rt; answers, [Err((7, 0)); 4]);
    assert_eq!(rt; after, whole_field());
    assert_eq!(rt; taken, Ok(()));
}

// What lay out answers on a map, and whether the map shows what it showed before.
fn lay_out_in_use(map: &mut OpenMap<Sample>) -> (Result<(), (u8, u32)>, bool) {
    let before = shown(map);
    let answer = told(map.lay_out(10, 450000, &[1, 5, 2, 6]));
    (answer, shown(map) == before)
}

#[test]
fn refuses_to_lay_out_in_use(rt: HostRuntime) {
    let mut cut = field(450000);
    let _ = cut.split(0, 0, 3);
    let mut judged = judged();
    let answers = [lay_out_in_use(&mut cut), lay_out_in_use(&mut judged)];
    assert_eq!(rt; answers, [(Err((8, 0)), true); 2]);
}

#[test]
fn refuses_boxes_that_there_are_not(rt: HostRuntime) {
    let mut map = field(450000);
    let mut found = BLANK;
    let answers = [
        told(map.split(1, 0, 3)),
        told(map.witness(1, &SAFE)),
        told(map.witness(1, &EXCEEDING)),
        told(map.find(1, &mut found)),
    ];
    let after = shown(&map);
    assert_eq!(rt; answers, [Err((9, 0)); 4]);
    assert_eq!(rt; found, BLANK);
    assert_eq!(rt; after, whole_field());
}

#[test]
fn refuses_judged_boxes(rt: HostRuntime) {
    let mut map = judged();
    let before = shown(&map);
    let answers = [
        told(map.split(0, 0, 3)),
        told(map.witness(0, &SAFE)),
        told(map.witness(0, &EXCEEDING)),
    ];
    let after = shown(&map);
    assert_eq!(rt; answers, [Err((10, 0)); 3]);
    assert_eq!(rt; before.volumes.safe, 16);
    assert_eq!(rt; after, before);
}

#[test]
fn refuses_cuts(rt: HostRuntime) {
    let mut map = field(450000);
    let answers = [
        told(map.split(0, 1, 6)),
        told(map.split(0, 2, 3)),
        told(map.split(0, 4294967295, 3)),
    ];
    let after = shown(&map);
    assert_eq!(rt; answers, [Err((11, 0)); 3]);
    assert_eq!(rt; after, whole_field());
}
