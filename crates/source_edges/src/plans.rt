// Plans as bytes: exactly one whole tree.
use plan::is_one_tree;
use std::alloc::{AllocError, Global};
use std::test::Fail;

const SCAN: [u8; 4] = [1, 2, 3, 1];

// Filters, then joins below each other, each with a scan on its left, and a scan at the end.
fn deep(heap: Global, filters: u8, joins: u8) -> Result<Vec<u8>, AllocError> {
    let mut bytes = Vec::new(heap);
    for _ in 0..filters {
        bytes.extend_from_slice(&[2, 0, 1, 2, 3, 4, 5])?;
    }
    for _ in 0..joins {
        bytes.extend_from_slice(&[3, 0, 1, 2, 3, 4, 5, 6, 7])?;
        bytes.extend_from_slice(&SCAN)?;
    }
    bytes.extend_from_slice(&SCAN)?;
    Ok(bytes)
}

#[test]
fn small_plans(rt: HostRuntime) {
    let trees: [&[u8]; 3] = [
        &[1, 1, 0, 0],
        &[2, 0, 0, 0, 0, 0, 0, 1, 255, 255, 255],
        &[3, 0, 0, 0, 0, 0, 0, 0, 0, 1, 2, 0, 3, 1, 1, 0, 1],
    ];
    for bytes in trees {
        assert!(rt; is_one_tree(bytes));
    }
    let others: [&[u8]; 12] = [
        &[],
        &[0],
        &[0, 1, 1, 0, 0],
        &[1],
        &[1, 1, 0],
        &[1, 1, 0, 0, 0],
        &[4, 1, 0, 0],
        &[255, 1, 0, 0],
        &[2, 0, 0, 0, 0, 0, 0],
        &[2, 0, 0, 0, 0, 0, 1, 1, 0, 0],
        &[1, 1, 0, 0, 1, 1, 0, 0],
        &[3, 0, 0, 0, 0, 0, 0, 0, 0, 1, 2, 0, 3],
    ];
    for bytes in others {
        assert!(rt; !is_one_tree(bytes));
    }
}

#[test]
fn plans_at_the_limits(rt: HostRuntime) -> Result<(), Fail> {
    // the filters, the joins, and whether it is a plan: 16 operators and 6 keepers at most
    let cases = [
        (15, 0, true),
        (16, 0, false),
        (0, 6, true),
        (0, 7, false),
        (3, 6, true),
        (4, 6, false),
        (5, 5, true),
        (6, 5, false),
    ];
    for (filters, joins, fits) in cases {
        let bytes = deep(rt.alloc(), filters, joins)?;
        assert_eq!(rt; is_one_tree(bytes.as_slice()), fits);
    }
    Ok(())
}

#[test]
fn parts_of_a_plan(rt: HostRuntime) -> Result<(), Fail> {
    let mut bytes = deep(rt.alloc(), 2, 2)?;
    for end in 0..bytes.len() {
        assert!(rt; !is_one_tree(&bytes.as_slice()[0..end]));
    }
    assert!(rt; is_one_tree(bytes.as_slice()));
    bytes.push(1)?;
    assert!(rt; !is_one_tree(bytes.as_slice()));
    Ok(())
}
