use crate::*;
use ordered_run::{OrderedRun, PutError};
use orders::Order;
use prices::Price;
use records::{Capacity, EntryFields, OrderType, Qualifier, Side};
use std::process::Abort;
use std::test::Fail;

// A resting order of 500 shares, of either kind.
fn line<L: Line>(
    side: Side,
    capacity: Capacity,
    units: u32,
    number: u32,
) -> Result<Queued<L>, Fail> {
    let fields = EntryFields {
        side,
        order_type: OrderType::Limit,
        qualifier: Qualifier::Unqualified,
        price: units,
        quantity: 500,
        minimum: 0,
        capacity,
    };
    let order = Order::try_from(fields)?;
    Ok(Queued(L::new(order, number, Price::try_from(units)?, 500)))
}

// Puts four lines in, the best last, and finds them by rank.
fn fill<L: Line>(rt: &impl Abort, run: &mut OrderedRun<Queued<L>>) -> Result<(), Fail> {
    run.put(line::<L>(Side::Sell, Capacity::Dealer, 1_005, 1)?)?;
    run.put(line::<L>(Side::Buy, Capacity::Dealer, 990, 2)?)?;
    run.put(line::<L>(Side::Sell, Capacity::Dealer, 1_000, 3)?)?;
    run.put(line::<L>(Side::Buy, Capacity::Dealer, 1_000, 4)?)?;
    assert_eq!(rt; run.find(4), Some(0));
    assert_eq!(rt; run.find(2), Some(1));
    assert_eq!(rt; run.find(3), Some(2));
    assert_eq!(rt; run.find(1), Some(3));
    Ok(())
}

#[test]
fn a_run_of_time_lines(rt: HostRuntime) -> Result<(), Fail> {
    let free = line::<TimeLine>(Side::Buy, Capacity::Dealer, 1, 0)?;
    let mut slots = [free; 4];
    let mut run = OrderedRun::new(&mut slots);
    fill(&rt, &mut run)?;
    assert_eq!(rt;
        run.put(line::<TimeLine>(Side::Buy, Capacity::Dealer, 994, 5)?),
        Err(PutError::Full),
        "each place is used"
    );
    assert!(rt; run.take_out(2).is_some());
    assert!(rt; run.take_out(2).is_none());
    assert_eq!(rt;
        run.put(line::<TimeLine>(Side::Buy, Capacity::Dealer, 994, 3)?),
        Err(PutError::SameKey),
        "the number is there"
    );
    assert_eq!(rt; run.len(), 3);
    run.put(line::<TimeLine>(Side::Buy, Capacity::Investor, 1_000, 5)?)?;
    assert_eq!(rt; run.find(5), Some(1), "the lower number first");
    Ok(())
}

#[test]
fn a_run_of_capacity_lines(rt: HostRuntime) -> Result<(), Fail> {
    let free = line::<CapacityLine>(Side::Buy, Capacity::Dealer, 1, 0)?;
    let mut slots = [free; 5];
    let mut run = OrderedRun::new(&mut slots);
    fill(&rt, &mut run)?;
    run.put(line::<CapacityLine>(Side::Buy, Capacity::Investor, 1_000, 5)?)?;
    assert_eq!(rt; run.find(5), Some(0), "investors first");
    assert_eq!(rt; run.find(4), Some(1));
    Ok(())
}

// Lines of the listed sides, capacities, prices and numbers, each of which precedes those listed after it and no other.
fn precede_in_turn<L: Line>(
    rt: &impl Abort,
    listed: &[(Side, Capacity, u32, u32)],
) -> Result<(), Fail> {
    for (i, (side, capacity, units, number)) in listed.iter().enumerate() {
        let Queued(one) = line::<L>(*side, *capacity, *units, *number)?;
        for (j, (side, capacity, units, number)) in listed.iter().enumerate() {
            let Queued(other) = line::<L>(*side, *capacity, *units, *number)?;
            assert_eq!(rt; one.is_before(&other), i < j, "line {i} and line {j}");
        }
    }
    Ok(())
}

#[test]
fn time_lines_of_every_rank(rt: HostRuntime) -> Result<(), Fail> {
    precede_in_turn::<TimeLine>(
        &rt,
        &[
            (Side::Buy, Capacity::Dealer, 1_010, 9),
            (Side::Buy, Capacity::Dealer, 1_000, 3),
            (Side::Buy, Capacity::Investor, 1_000, 5),
            (Side::Buy, Capacity::Dealer, 1_000, 7),
            (Side::Sell, Capacity::Dealer, 990, 8),
            (Side::Sell, Capacity::Dealer, 1_005, 2),
            (Side::Sell, Capacity::Investor, 1_005, 6),
        ],
    )
}

#[test]
fn capacity_lines_of_every_rank(rt: HostRuntime) -> Result<(), Fail> {
    precede_in_turn::<CapacityLine>(
        &rt,
        &[
            (Side::Buy, Capacity::Dealer, 1_010, 9),
            (Side::Buy, Capacity::Investor, 1_000, 5),
            (Side::Buy, Capacity::Dealer, 1_000, 3),
            (Side::Buy, Capacity::Dealer, 1_000, 7),
            (Side::Sell, Capacity::Dealer, 990, 8),
            (Side::Sell, Capacity::Investor, 1_005, 6),
            (Side::Sell, Capacity::Dealer, 1_005, 2),
        ],
    )
}

// Takes shares off a line of 500, of either kind.
fn take_shares_off<L: Line>(rt: &impl Abort) -> Result<(), Fail> {
    let Queued(mut resting) = line::<L>(Side::Buy, Capacity::Dealer, 1_000, 7)?;
    assert_eq!(rt; resting.take_off(501), Err(MoreThanLeft));
    assert_eq!(rt; resting.left(), 500);
    assert_eq!(rt; resting.take_off(200), Ok(()));
    assert_eq!(rt; resting.left(), 300);
    assert_eq!(rt; resting.take_off(300), Ok(()));
    assert_eq!(rt; resting.left(), 0);
    assert_eq!(rt; resting.number(), 7);
    Ok(())
}

#[test]
fn shares_are_taken_off(rt: HostRuntime) -> Result<(), Fail> {
    take_shares_off::<TimeLine>(&rt)?;
    take_shares_off::<CapacityLine>(&rt)
}

fn level(units: u32) -> Result<PriceLevel, Fail> {
    Ok(PriceLevel {
        price: Price::try_from(units)?,
        buyers: 100,
        sellers: 300,
        volume: 100,
        imbalance: -200,
    })
}

#[test]
fn a_run_of_price_levels(rt: HostRuntime) -> Result<(), Fail> {
    let mut slots = [level(1)?; 3];
    let mut run = OrderedRun::new(&mut slots);
    run.put(level(1_000)?)?;
    run.put(level(990)?)?;
    assert_eq!(rt;
        run.put(level(1_000)?),
        Err(PutError::SameKey),
        "the price is there"
    );
    run.put(level(1_010)?)?;
    assert_eq!(rt; run.find(1_010), Some(0));
    assert_eq!(rt; run.find(1_000), Some(1));
    assert_eq!(rt; run.find(990), Some(2));
    let back = run.into_slots();
    assert!(rt; back.len() == 3);
    assert_eq!(rt; back[0].price.units(), 1_010);
    Ok(())
}
