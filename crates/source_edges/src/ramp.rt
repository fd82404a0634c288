// Ramps: width 2, row i is (i, start + i × step).
use crate::found::{rows_at, verdict};
use inputs::{pair, ramp};
use source::Source;
use std::test::Fail;

#[test]
fn rows_of_a_ramp(rt: HostRuntime) -> Result<(), Fail> {
    let ramp = ramp(-200, 175, 3)?;
    let rows = [Some(pair(0, -200)), Some(pair(1, -25)), Some(pair(2, 150))];
    let none = rows_at(&ramp, [3, 4, 65535]);
    assert_eq!(rt; (rows_at(&ramp, [0, 1, 2]), none), (rows, [None; 3]));
    assert_eq!(rt; (ramp.width(), ramp.count()), (2, 3));
    Ok(())
}

#[test]
fn ramp_cells_have_32_bits(rt: HostRuntime) {
    // the start, the step, and how many rows fit at most
    let cases = [
        (i32::MAX, 1, 1),
        (i32::MAX - 1, 1, 2),
        (i32::MIN, -1, 1),
        (i32::MIN + 1, -1, 2),
        (0, i32::MIN, 2),
        (-1, i32::MIN, 1),
        (1, i32::MIN, 2),
        (0, i32::MAX, 2),
        (-1, i32::MAX, 2),
        (1, i32::MAX, 1),
        (i32::MIN, i32::MAX, 3),
        (i32::MAX, i32::MIN, 2),
        (i32::MIN, i32::MIN, 1),
        (i32::MAX, i32::MAX, 1),
        (0, 524416, 4096),
        (0, 524417, 4095),
    ];
    for (start, step, rows) in cases {
        assert_eq!(rt;
            [
                verdict(ramp(start, step, 0)),
                verdict(ramp(start, step, 1)),
                verdict(ramp(start, step, rows)),
                verdict(ramp(start, step, rows.saturating_add(1))),
            ],
            [0, 0, 0, 12]
        );
    }
}

#[test]
fn ramps_of_at_most_4096_rows(rt: HostRuntime) -> Result<(), Fail> {
    let most = [
        verdict(ramp(i32::MAX, 0, 4096)),
        verdict(ramp(i32::MAX, -1, 4096)),
    ];
    let over = [verdict(ramp(i32::MIN, 0, 4097)), verdict(ramp(0, 0, 65535))];
    assert_eq!(rt; [most, over], [[0, 0], [12, 12]]);
    // 4095 × 524416 = 2147483520
    let ramp = ramp(0, 524416, 4096)?;
    let rows = [Some(pair(0, 0)), Some(pair(4095, 2147483520)), None];
    assert_eq!(rt; rows_at(&ramp, [0, 4095, 4096]), rows);
    Ok(())
}
