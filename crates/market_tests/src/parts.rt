// Ranges, orders, the roll and files in order.
use arrayvec::ArrayVec;
use market::change::Change;
use market::file::{insert, insert_in_order, remove_at};
use market::range::range_around;
use market::roll::Roll;
use market::side::{Bids, Offers, Resting};
use market::words::{Column, Kind, Order, Side};
use std::process::Abort;
use std::test::Fail;

fn check_range(
    rt: &impl Abort,
    class: u32,
    column: Column,
    last_sale: u32,
    low: u32,
    high: u32,
) -> Result<(), Fail> {
    let Some(range) = range_around(class, column, last_sale) else {
        return Err(Fail::new("no range"));
    };
    assert_eq!(rt; (range.low, range.high), (low, high));
    Ok(())
}

#[test]
fn ranges(rt: HostRuntime) -> Result<(), Fail> {
    check_range(&rt, 2, Column::Lower, 2010, 2000, 2020)?;
    check_range(&rt, 1, Column::Lower, 499, 494, 504)?;
    check_range(&rt, 1, Column::Lower, 2499, 2489, 2509)?;
    check_range(&rt, 1, Column::Lower, 2500, 2485, 2515)?;
    check_range(&rt, 2, Column::Higher, 4, 1, 14)?;
    check_range(&rt, 3, Column::Higher, 14_999, 14_899, 15_099)?;
    check_range(&rt, 3, Column::Higher, 100_000, 99_800, 100_200)?;
    assert!(rt; range_around(1, Column::Lower, 0).is_none());
    assert!(rt; range_around(258, Column::Lower, 2010).is_none());
    Ok(())
}

#[test]
fn an_order_filled_and_cancelled(rt: HostRuntime) {
    let mut order = Order::new(1, 7, Side::Buy, Kind::Limit, 2010, 500);
    order.rest();
    assert!(rt; order.fill(200) && order.rests_on(Side::Buy));
    assert!(rt; !order.fill(400) && order.open == 300);
    assert!(rt; order.cancel() && !order.rests_on(Side::Buy));
    assert_eq!(rt; (order.filled, order.cancelled, order.open), (200, 300, 0));
    assert!(rt; order.in_limit(2010) && !order.in_limit(2011));
}

#[test]
fn a_full_roll(rt: HostRuntime) {
    let mut roll = Roll::new();
    let order = Order::new(1, 7, Side::Sell, Kind::Limit, 2010, 100);
    for _ in 0..512 {
        assert!(rt; roll.push(order).is_ok());
    }
    assert!(rt; roll.push(order).is_err() && roll.len() == 512);
    assert!(rt; roll.change(511, Change::Rest) && !roll.change(512, Change::Rest));
}

fn bid(price: u32, number: u32) -> Resting<Bids> {
    Resting {
        price,
        number,
        side: Bids,
    }
}

// Higher bids stand first, and at one price the lower number.
#[test]
fn bids_in_order(rt: HostRuntime) {
    let mut file = [bid(0, 0); 3];
    assert_eq!(rt; insert(&mut file, 0, bid(2010, 2)).ok(), Some(0));
    assert_eq!(rt; insert(&mut file, 1, bid(2011, 3)).ok(), Some(0));
    assert_eq!(rt; insert(&mut file, 2, bid(2010, 1)).ok(), Some(1));
    assert!(rt; insert(&mut file, 3, bid(2012, 4)).is_err());
    assert_eq!(rt; (file[0].number, file[1].number, file[2].number), (3, 1, 2));
    assert!(rt; remove_at(&mut file, 3, 1).is_some() && remove_at(&mut file, 2, 2).is_none());
    assert_eq!(rt; (file[0].number, file[1].number), (3, 2));
}

// The same in a vector, as the book keeps its tables.
#[test]
fn bids_in_a_vector(rt: HostRuntime) {
    let mut file: ArrayVec<Resting<Bids>, 3> = ArrayVec::new();
    assert_eq!(rt; insert_in_order(&mut file, bid(2010, 2)).ok(), Some(0));
    assert_eq!(rt; insert_in_order(&mut file, bid(2011, 3)).ok(), Some(0));
    assert_eq!(rt; insert_in_order(&mut file, bid(2010, 1)).ok(), Some(1));
    assert!(rt; insert_in_order(&mut file, bid(2012, 4)).is_err());
    let numbers = file.as_slice();
    assert_eq!(rt;
        (numbers[0].number, numbers[1].number, numbers[2].number),
        (3, 1, 2)
    );
}
