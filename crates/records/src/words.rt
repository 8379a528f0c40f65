// What is printed of a side, a capacity and an account.
ghost use Rattle.std.specs.Prelude.{Some};
ghost use Rattle.records.specs.Words.{capacity_word, side_word};

use crate::letters::{Capacity, Side};
use crate::record::{Account, KeptAccount};
use std::{fmt, str};

impl fmt::Display for Side {
    ghost output = { λ side. Some (side_word side) };

    fn fmt<W: fmt::Write>(&self, f: &mut fmt::Formatter<W>) -> fmt::Result {
        f.write_str(match self {
            Side::Buy => "buy",
            Side::Sell => "sell",
        })
    }
}

impl fmt::Display for Capacity {
    ghost output = { λ capacity. Some (capacity_word capacity) };

    fn fmt<W: fmt::Write>(&self, f: &mut fmt::Formatter<W>) -> fmt::Result {
        f.write_str(match self {
            Capacity::Investor => "investor",
            Capacity::Dealer => "dealer",
        })
    }
}

impl fmt::Display for Account<'_> {
    ghost output = { λ account. Some account.bytes.now };

    fn fmt<W: fmt::Write>(&self, f: &mut fmt::Formatter<W>) -> fmt::Result {
        let bytes = self.bytes;
        f.write_str(str::from_utf8(bytes).unwrap())
    }
}

impl fmt::Display for KeptAccount {
    ghost output = { λ account. Some account.bytes };

    fn fmt<W: fmt::Write>(&self, f: &mut fmt::Formatter<W>) -> fmt::Result {
        let KeptAccount { bytes, place } = self;
        let lent = Account {
            bytes,
            place: *place,
        };
        write!(f, "{lent}")
    }
}
