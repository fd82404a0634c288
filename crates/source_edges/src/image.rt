// Table images: which bytes are one, and which rows they hold.
use crate::found::{rows_at, verdict};
use codec::Row;
use refusal::Refusal;
use source::{Image, Source};
use std::alloc::{AllocError, Global};
use std::test::Fail;

// A row of one cell.
fn single(cell: i32) -> Option<Row> {
    Some(Row {
        cells: [cell, 0, 0, 0, 0, 0, 0, 0],
    })
}

// An image of width 1 whose row i holds i.
fn numbered(heap: Global, count: u16) -> Result<Vec<u8>, AllocError> {
    let [hi, lo] = count.to_be_bytes();
    let mut bytes = vec![in heap; 1, hi, lo, 1]?;
    for i in 0..count {
        bytes.extend_from_slice(&i32::from(i).to_be_bytes())?;
    }
    Ok(bytes)
}

#[test]
fn other_bytes_are_refused(rt: HostRuntime) {
    let others: [&[u8]; 18] = [
        &[],
        &[1],
        &[1, 0],
        &[1, 0, 0],
        &[0, 0, 0, 2],
        &[2, 0, 0, 2],
        &[255, 0, 0, 2],
        &[1, 0, 0, 0],
        &[1, 0, 0, 9],
        &[1, 0, 1, 0],
        &[1, 0, 0, 2, 0],
        &[0, 0, 1, 1, 0, 0, 0, 5],
        &[2, 0, 1, 1, 0, 0, 0, 5],
        &[1, 0, 1, 1, 0, 0, 0],
        &[1, 0, 1, 1, 0, 0, 0, 5, 0],
        &[1, 0, 2, 1, 0, 0, 0, 5],
        &[1, 1, 0, 1, 0, 0, 0, 5],
        &[1, 0, 1, 2, 0, 0, 0, 5],
    ];
    for bytes in others {
        assert_eq!(rt; verdict(Image::new(bytes)), 12);
    }
    assert_eq!(rt; Refusal::BadSource.word(), "bad source");
}

#[test]
fn images_of_no_rows(rt: HostRuntime) -> Result<(), Fail> {
    let image = Image::new(&[1, 0, 0, 2])?;
    let rows = rows_at(&image, [0, 1, 65535]);
    assert_eq!(rt; (image.width(), image.count(), rows), (2, 0, [None; 3]));
    Ok(())
}

#[test]
fn cells_of_both_signs(rt: HostRuntime) -> Result<(), Fail> {
    let bytes = [
        1, 0, 4, 1, 0x80, 0, 0, 0, 0x7F, 0xFF, 0xFF, 0xFF, 0xFF, 0xFF, 0xFF, 0xFF, 0xFF, 0xFF,
        0xFF, 0x38,
    ];
    let image = Image::new(&bytes)?;
    let first = [single(i32::MIN), single(i32::MAX), single(-1)];
    assert_eq!(rt; rows_at(&image, [0, 1, 2]), first);
    let last = [single(-200), None, None];
    assert_eq!(rt; rows_at(&image, [3, 4, 65535]), last);
    Ok(())
}

#[test]
fn eight_cells_at_most(rt: HostRuntime) -> Result<(), Fail> {
    let bytes = [
        1, 0, 1, 8, 0, 0, 0, 1, 0, 0, 1, 0, 0, 1, 0, 0, 1, 0, 0, 0, 0, 0, 0, 5, 0, 0, 0, 6, 0, 0,
        0, 7, 255, 255, 255, 248,
    ];
    let image = Image::new(&bytes)?;
    let cells = Some(Row {
        cells: [1, 256, 65536, 16777216, 5, 6, 7, -8],
    });
    assert_eq!(rt; rows_at(&image, [0, 0, 1]), [cells, cells, None]);
    let mut long = [0; 40];
    long[0] = 1;
    long[2] = 1;
    long[3] = 9;
    let nine = verdict(Image::new(&long));
    long[3] = 8;
    assert_eq!(rt;
        [
            nine,
            verdict(Image::new(&long)),
            verdict(Image::new(&long[0..36]))
        ],
        [12, 12, 0]
    );
    Ok(())
}

#[test]
fn images_of_at_most_4096_rows(rt: HostRuntime) -> Result<(), Fail> {
    let most = numbered(rt.alloc(), 4096)?;
    let image = Image::new(most.as_slice())?;
    let rows = [single(0), single(4095), None];
    assert_eq!(rt; rows_at(&image, [0, 4095, 4096]), rows);
    let over = numbered(rt.alloc(), 4097)?;
    assert_eq!(rt; verdict(Image::new(over.as_slice())), 12);
    Ok(())
}
