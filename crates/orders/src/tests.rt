use crate::*;
use records::{
    Capacity, EntryFields, OrderType, Qualifier, Refusal, ShortRecord, Side, write_short,
};

fn fields(
    order_type: OrderType,
    qualifier: Qualifier,
    price: u32,
    quantity: u32,
    minimum: u32,
) -> EntryFields {
    EntryFields {
        side: Side::Sell,
        order_type,
        qualifier,
        price,
        quantity,
        minimum,
        capacity: Capacity::Dealer,
    }
}

// The number of the refusal; none where the fields make an order.
fn refusal_number(fields: EntryFields) -> Option<u8> {
    let fault = Order::try_from(fields).err()?;
    Some(Refusal::from(fault).number)
}

#[test]
fn the_lowest_refusal_is_given(rt: HostRuntime) {
    let limit = OrderType::Limit;
    let none = Qualifier::Unqualified;
    for (price, quantity, minimum, number) in [
        (1_000, 100, 0, None),
        (1_000, 1_000_000, 1_000_000, None),
        (10_000_000, 500, 300, None),
        (1_003, 50, 70, Some(4)),
        (0, 100, 0, Some(4)),
        (1_000, 0, 0, Some(5)),
        (1_000, 150, 200, Some(5)),
        (1_000, 1_000_100, 0, Some(5)),
        (1_000, u32::MAX, u32::MAX, Some(5)),
        (1_000, 500, 600, Some(6)),
        (1_000, 500, 150, Some(6)),
        (1_000, 500, u32::MAX, Some(6)),
    ] {
        assert_eq!(rt;
            refusal_number(fields(limit, none, price, quantity, minimum)),
            number
        );
    }
}

#[test]
fn market_and_fill_or_kill_have_no_minimum(rt: HostRuntime) {
    let market = OrderType::Market;
    let limit = OrderType::Limit;
    assert_eq!(rt;
        refusal_number(fields(market, Qualifier::Unqualified, 0, 500, 0)),
        None
    );
    assert_eq!(rt;
        refusal_number(fields(market, Qualifier::Unqualified, 1_000, 500, 100)),
        Some(4)
    );
    assert_eq!(rt;
        refusal_number(fields(market, Qualifier::Unqualified, 0, 500, 100)),
        Some(7)
    );
    assert_eq!(rt;
        refusal_number(fields(limit, Qualifier::FillOrKill, 1_000, 500, 0)),
        None
    );
    assert_eq!(rt;
        refusal_number(fields(limit, Qualifier::FillOrKill, 1_000, 500, 100)),
        Some(7)
    );
    assert_eq!(rt;
        refusal_number(fields(limit, Qualifier::FillOrKill, 1_000, 500, 150)),
        Some(6)
    );
    assert_eq!(rt;
        refusal_number(fields(limit, Qualifier::ImmediateOrCancel, 1_000, 500, 500)),
        None
    );
}

// Whether the fields make an order, and a plain one.
fn is_plain(fields: EntryFields) -> bool {
    let Ok(order) = Order::try_from(fields) else {
        return false;
    };
    PlainOrder::try_from(order).is_ok()
}

#[test]
fn plain_orders_are_limits_and_no_more(rt: HostRuntime) {
    assert!(rt; is_plain(fields(OrderType::Limit, Qualifier::Unqualified, 1_000, 500, 0)));
    assert!(rt; !is_plain(fields(OrderType::Limit, Qualifier::Unqualified, 1_000, 500, 100)));
    assert!(rt; !is_plain(fields(OrderType::Limit, Qualifier::FillOrKill, 1_000, 500, 0)));
    assert!(rt;
        !is_plain(fields(
            OrderType::Limit,
            Qualifier::ImmediateOrCancel,
            1_000,
            500,
            0,
        ))
    );
    assert!(rt; !is_plain(fields(OrderType::Market, Qualifier::Unqualified, 0, 500, 0)));
}

// The order's record, or 32 zeros where the fields make no order.
fn record_of(fields: EntryFields, account: &[u8; 8]) -> [u8; 32] {
    let mut out = [0; 32];
    if let Ok(order) = Order::try_from(fields) {
        let _ = write_order(order, account, &mut out);
    }
    out
}

#[test]
fn orders_are_written_byte_by_byte(rt: HostRuntime) {
    let market = fields(OrderType::Market, Qualifier::ImmediateOrCancel, 0, 300, 0);
    assert!(rt;
        record_of(market, b"ACCOUNT2")
            == *b"ESMI\x00\x00\x00\x00\x00\x00\x01\x2C\x00\x00\x00\x00\x00\x00\x00\x00D\x00\x00\x00ACCOUNT2"
    );
    let limit = fields(
        OrderType::Limit,
        Qualifier::Unqualified,
        10_000_000,
        1_000_000,
        100,
    );
    assert!(rt;
        record_of(limit, b"!~!~!~!~")
            == *b"ESLN\x00\x98\x96\x80\x00\x0F\x42\x40\x00\x00\x00\x00\x00\x00\x00\x64D\x00\x00\x00!~!~!~!~"
    );
    assert!(rt; record_of(limit, b"ACCOUNT ") == [0; 32]);
}

// The instruction in the buffer, once the buffer has the record of a halt.
fn read_and_overwritten(buffer: &mut [u8; 32]) -> Option<Instruction> {
    let found = read_instruction(&*buffer, 0);
    write_short(ShortRecord::Halt, buffer);
    found.ok()?
}

// The account that an entry keeps, and its place.
fn kept_account(found: Option<Instruction>) -> Option<([u8; 8], usize)> {
    let Instruction::Entry(_, account) = found? else {
        return None;
    };
    let bytes = account.bytes;
    Some((bytes, account.place))
}

// An instruction is kept while its buffer takes the next record.
#[test]
fn an_instruction_outlives_its_input(rt: HostRuntime) {
    let market = fields(OrderType::Market, Qualifier::ImmediateOrCancel, 0, 300, 0);
    let mut buffer = record_of(market, b"ACCOUNT2");
    let kept = kept_account(read_and_overwritten(&mut buffer));
    assert_eq!(rt; kept, Some((*b"ACCOUNT2", 24)));
    let next = read_and_overwritten(&mut buffer);
    assert_eq!(rt; next, Some(Instruction::Halt));
}
