use crate::example::worked_example;
use crate::rotation::Rotation;
use crate::rule::{ShareOut, share_out_counted};
use crate::time_priority::TimePriority;

fn gifts<R: ShareOut>(rule: &R, row: &[u32; 4], quantity: u32) -> [u32; 4] {
    let mut gifts = *row;
    rule.share_out(&mut gifts, quantity);
    gifts
}

// Whether both rules give these gifts.
fn give(row: &[u32; 4], quantity: u32, turns: &[u32; 4], order: &[u32; 4]) -> bool {
    gifts(&Rotation, row, quantity) == *turns && gifts(&TimePriority, row, quantity) == *order
}

#[test]
fn example(rt: HostRuntime) {
    let gifts = worked_example();
    assert_eq!(rt; gifts.turns, [200, 100, 200]);
    assert_eq!(rt; gifts.order, [300, 100, 100]);
}

#[test]
fn equal_entries_and_the_whole_row(rt: HostRuntime) {
    let row = [300, 300, 300, 300];
    assert!(rt; give(&row, 1000, &[300, 300, 200, 200], &[300, 300, 300, 100]));
    assert!(rt; give(&row, 100, &[100, 0, 0, 0], &[100, 0, 0, 0]));
    assert!(rt; give(&row, 1200, &row, &row));
    assert!(rt;
        give(
            &[1_000_000, 100, 700, 700],
            2300,
            &[800, 100, 700, 700],
            &[2300, 0, 0, 0],
        )
    );
}

#[test]
fn quantities_that_cannot_be_shared_out(rt: HostRuntime) {
    let row = [300, 100, 500, 100];
    let none = [0, 0, 0, 0];
    assert!(rt; give(&row, 0, &none, &none));
    assert!(rt; give(&row, 1100, &none, &none));
    assert!(rt; give(&row, 150, &none, &none));
    assert!(rt; give(&[300, 50, 500, 100], 100, &none, &none));
    assert!(rt; give(&[300, 1_000_100, 500, 100], 100, &none, &none));
}

#[test]
fn lengths(rt: HostRuntime) {
    let mut one = [700];
    assert_eq!(rt; share_out_counted(&Rotation, &mut one, 400), 400);
    assert_eq!(rt; one, [400]);
    let mut empty: [u32; 0] = [];
    assert_eq!(rt; share_out_counted(&TimePriority, &mut empty, 100), 0);
    let mut full = [100; 512];
    assert_eq!(rt; share_out_counted(&Rotation, &mut full, 51_200), 51_200);
    let mut over = [100; 513];
    assert_eq!(rt; share_out_counted(&Rotation, &mut over, 51_200), 0);
    assert_eq!(rt; over[0], 0);
}
