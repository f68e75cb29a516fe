use crate::{occurs, occurs_cells};

#[test]
fn letters(rt: HostRuntime) {
    assert!(rt; occurs(&[0, 2, 1], &[1, 0, 3, 2]));
    assert!(rt; occurs(&[0, 2, 1], &[1, 3, 0, 2]));
    assert!(rt; !occurs(&[0, 2, 1], &[2, 1, 0]));
    assert!(rt; !occurs(&[0, 1], &[]));
    assert!(rt; occurs(&[0, 1, 2, 3], &[0, 1, 2, 3]));
    assert!(rt; !occurs(&[0, 1, 2, 3], &[0, 1, 2]));
    assert!(rt; occurs(&[0], &[200]));
    assert!(rt; occurs(&[2, 0, 3, 1], &[9, 5, 1, 200, 7, 3]));
    assert!(rt; !occurs(&[1, 3, 0, 2], &[0, 1, 2, 3, 4, 5, 6, 7, 8]));
}

#[test]
fn cells(rt: HostRuntime) {
    assert!(rt; occurs_cells(&[0, 1], &[0, 9], &[0, 1], &[0, 9]));
    assert!(rt; !occurs_cells(&[0, 1], &[0, 9], &[0, 1], &[0, 0]));
    assert!(rt; occurs_cells(&[0], &[63], &[1, 0], &[0, 63]));
    assert!(rt; !occurs_cells(&[0, 2, 1], &[0, 1, 8], &[0, 2, 1], &[0, 1, 9]));
    assert!(rt; occurs_cells(&[0, 2, 1], &[0, 1, 9], &[1, 0, 3, 2], &[0, 0, 1, 9]));
    assert!(rt; !occurs_cells(&[3, 2, 1, 0], &[0, 0, 0, 0], &[3, 2, 0, 1], &[0, 0, 0, 0]));
    assert!(rt; occurs_cells(&[3, 2, 1, 0], &[1, 1, 0, 0], &[3, 2, 1, 0], &[1, 1, 0, 0]));
}
