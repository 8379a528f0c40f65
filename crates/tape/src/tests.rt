use crate::*;
use prices::Price;
use std::test::Fail;

fn trade(buyer: u32, seller: u32, units: u32, quantity: u32) -> Result<Trade, Fail> {
    Ok(Trade {
        buyer,
        seller,
        price: Price::try_from(units)?,
        quantity,
    })
}

#[test]
fn trades_stand_in_their_order(rt: HostRuntime) -> Result<(), Fail> {
    let mut places = [trade(0, 0, 1, 0)?; 3];
    let mut tape = Tape::new(&mut places);
    assert!(rt; tape.trades().is_empty(), "whatever the memory held");
    tape.write(trade(7, 8, 1_000, 300)?)?;
    tape.write(trade(7, 9, 1_005, 200)?)?;
    assert_eq!(rt; tape.free(), 1);
    let wanted = [trade(7, 8, 1_000, 300)?, trade(7, 9, 1_005, 200)?];
    assert_eq!(rt; tape.trades(), wanted.as_slice());
    Ok(())
}

#[test]
fn a_full_tape_refuses(rt: HostRuntime) -> Result<(), Fail> {
    let mut places = [trade(0, 0, 1, 0)?; 1];
    let mut tape = Tape::new(&mut places);
    tape.write(trade(7, 8, 1_000, 300)?)?;
    assert_eq!(rt; tape.free(), 0);
    assert_eq!(rt; tape.write(trade(7, 9, 1_005, 200)?), Err(Full));
    let places = tape.into_places();
    assert_eq!(rt; places.len(), 1);
    assert_eq!(rt; places[0].seller, 8, "the first trade stays");
    Ok(())
}

#[test]
fn a_refusal_is_told(rt: HostRuntime) -> Result<(), Fail> {
    let full = format!(in rt.alloc(); "{}", Full)?;
    assert_eq!(rt; full.as_str(), "each place is used");
    Ok(())
}
