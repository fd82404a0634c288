// Selections from images and ramps.
use codec::Row;
use inputs::{slope, where_cell};
use run::Failure;
use select::{Selection, select_image, select_ramp};

// The number of the refusal, as a controller reports it, or 0 for a selection, and 99 for want of memory.
fn verdict(res: Result<Selection, Failure>) -> u8 {
    match res {
        Ok(_) => 0,
        Err(Failure::Refused(refusal)) => refusal.number(),
        Err(Failure::NoMemory) => 99,
    }
}

// Whether two rows were selected.
fn selects(
    res: Result<Selection, Failure>,
    width: usize,
    steps: usize,
    rows: [[i32; 8]; 2],
) -> bool {
    let Ok(found) = res else {
        return false;
    };
    let rows = rows.map(|cells| Row { cells });
    found.rows.as_slice() == rows.as_slice() && found.width == width && found.steps == steps
}

#[test]
fn selected_rows(rt: HostRuntime) {
    let ramp = select_ramp(rt.alloc(), slope(-200, 175, 3), where_cell(1, b'>', -200));
    let ramp_rows = [[1, -25, 0, 0, 0, 0, 0, 0], [2, 150, 0, 0, 0, 0, 0, 0]];
    // the rows (-200), (5) and (-200)
    let bytes = [1, 0, 3, 1, 255, 255, 255, 56, 0, 0, 0, 5, 255, 255, 255, 56];
    let image = select_image(rt.alloc(), &bytes, where_cell(0, b'<', 5));
    let image_rows = [[-200, 0, 0, 0, 0, 0, 0, 0]; 2];
    assert_eq!(rt;
        [
            selects(ramp, 2, 3, ramp_rows),
            selects(image, 1, 3, image_rows),
        ],
        [true; 2]
    );
}

#[test]
fn selections_refused(rt: HostRuntime) {
    // the rows of a ramp of which 4096 fit, the version of an image, the cell, the condition, and the number
    let cases = [
        (4097, 2, 2, b'?', 12),
        (4097, 0, 1, b'=', 12),
        (3, 1, 2, b'?', 1),
        (3, 1, 255, b'=', 1),
        (3, 1, 1, b'?', 3),
        (3, 1, 1, b'=', 0),
    ];
    for (count, version, cell, condition, number) in cases {
        let wanted = where_cell(cell, condition, 0);
        let image = [version, 0, 1, 2, 0, 0, 0, 0, 0, 0, 0, 0];
        assert_eq!(rt;
            verdict(select_ramp(rt.alloc(), slope(0, 0, count), wanted)),
            number
        );
        assert_eq!(rt; verdict(select_image(rt.alloc(), &image, wanted)), number);
    }
}
