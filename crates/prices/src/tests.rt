use crate::{NoPrice, Price, house_steps, step_at};
use std::test::Fail;

#[test]
fn lawful_numbers_make_prices(rt: HostRuntime) -> Result<(), Fail> {
    for units in [
        1, 499, 500, 998, 1_000, 4_995, 5_000, 49_975, 50_000, 99_950, 100_000, 10_000_000,
    ] {
        let price = Price::try_from(units)?;
        assert_eq!(rt; price.units(), units);
    }
    Ok(())
}

#[test]
fn other_numbers_make_none(rt: HostRuntime) {
    for units in [
        0,
        501,
        999,
        1_003,
        4_999,
        5_005,
        50_025,
        99_975,
        100_050,
        9_999_999,
        10_000_001,
        10_000_100,
        u32::MAX,
    ] {
        assert_eq!(rt; Price::try_from(units), Err(NoPrice));
    }
}

#[test]
fn steps_begin_at_their_rows(rt: HostRuntime) {
    for (units, step) in [
        (0, 0),
        (1, 1),
        (499, 1),
        (500, 2),
        (999, 2),
        (1_000, 5),
        (4_999, 5),
        (5_000, 25),
        (49_999, 25),
        (50_000, 50),
        (99_999, 50),
        (100_000, 100),
    ] {
        assert_eq!(rt; step_at(&house_steps(), units), step);
    }
}

#[test]
fn prices_print_with_four_places(rt: HostRuntime) -> Result<(), Fail> {
    for (units, text) in [
        (1, "0.0001"),
        (1_000, "0.1000"),
        (10_000, "1.0000"),
        (123_400, "12.3400"),
        (10_000_000, "1000.0000"),
    ] {
        let price = Price::try_from(units)?;
        let shown = format!(in rt.alloc(); "{price}")?;
        assert!(rt; shown.as_str() == text);
    }
    Ok(())
}
