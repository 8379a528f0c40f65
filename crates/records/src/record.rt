// What a record says.
ghost use Rattle.std.specs.Prelude.{◌≡◌, None};
ghost use Rattle.records.specs.Layout.{account_layout, misfit};

use crate::letters::{Capacity, OrderType, Qualifier, Side};
use std::convert::Infallible;

// The account of an entry, whose bytes are printable: a part of the input, and where in the input it begins.
#[derive(Clone, Copy, PartialEq, Eq, Debug)]
pub struct Account<'a> {
    pub bytes: &'a [u8; 8],
    pub place: usize,
    ghost printable: { misfit account_layout bytes.now ≡ None },
}

// The same by value, for what is kept when the input is gone.
#[derive(Clone, Copy, PartialEq, Eq, Debug)]
pub struct KeptAccount {
    pub bytes: [u8; 8],
    pub place: usize,
    ghost printable: { misfit account_layout bytes ≡ None },
}

impl From<Account<'_>> for KeptAccount {
    ghost from_gives = { λ account r. (r.bytes ≡ account.bytes.now) × (r.place ≡ account.place) };

    fn from(account: Account<'_>) -> KeptAccount {
        let Account { bytes, place } = account;
        KeptAccount {
            bytes: *bytes,
            place,
        }
    }
}

// An entry's fields as they stand in the record; whether they make an order is not looked at.
#[derive(Clone, Copy, PartialEq, Eq, Debug)]
pub struct EntryFields {
    pub side: Side,
    pub order_type: OrderType,
    pub qualifier: Qualifier,
    pub price: u32,
    pub quantity: u32,
    // 0 where there is none.
    pub minimum: u32,
    pub capacity: Capacity,
}

// One of the seven kinds of message, with its reference, its order and its account at the stage they have reached.
#[derive(Clone, Copy, PartialEq, Eq, Debug)]
pub enum Message<R, O, A> {
    // With the reference.
    Start(R),
    Entry(O, A),
    // With the order's number.
    Withdrawal(u32),
    Opening,
    Halt,
    Resumption,
    Closing,
}

pub type Record<'a> = Message<u32, EntryFields, Account<'a>>;

// A record that cannot be an entry, in which nothing can be refused.
pub type ShortRecord = Message<u32, Infallible, ()>;
