// What a record spells by one letter.
ghost use Rattle.std.specs.Prelude.{◌≡◌, if◌then◌else◌, Some, None, MatchResult};
ghost use Rattle.std.specs.Result.{result_ok};
ghost use Rattle.records.specs.Kinds.{HasNoKind, kind_letter};
ghost use Rattle.records.specs.Layout.{fits};
ghost use Rattle.records.specs.Letters.{capacity_letter, capacity_of, qualifier_letter, qualifier_of, side_letter, side_of, type_letter, type_of};
ghost use Rattle.records.specs.declared.layout.ByteRule.TheVariants.{CapacityLetter, QualifierLetter, SideLetter, TypeLetter};

#[derive(Clone, Copy, PartialEq, Eq, Debug)]
pub enum Kind {
    Start,
    Entry,
    Withdrawal,
    Opening,
    Halt,
    Resumption,
    Closing,
}

#[derive(Clone, Copy, PartialEq, Eq, Debug)]
pub enum Side {
    Buy,
    Sell,
}

#[derive(Clone, Copy, PartialEq, Eq, Debug)]
pub enum OrderType {
    Limit,
    Market,
}

#[derive(Clone, Copy, PartialEq, Eq, Debug)]
pub enum Qualifier {
    Unqualified,
    FillOrKill,
    ImmediateOrCancel,
}

// In the order of rank.
#[derive(Clone, Copy, PartialEq, Eq, PartialOrd, Ord, Debug)]
pub enum Capacity {
    Investor,
    Dealer,
}

// A byte that spells none of the choices.
#[derive(Clone, Copy, PartialEq, Eq, Debug)]
pub struct NoLetter;

impl From<Kind> for u8 {
    ghost from_gives = { λ kind r. r ≡ kind_letter kind };

    fn from(kind: Kind) -> u8 {
        match kind {
            Kind::Start => b'D',
            Kind::Entry => b'E',
            Kind::Withdrawal => b'W',
            Kind::Opening => b'O',
            Kind::Halt => b'H',
            Kind::Resumption => b'R',
            Kind::Closing => b'C',
        }
    }
}

impl TryFrom<u8> for Kind {
    type Error = NoLetter;

    ghost try_from_gives = { λ letter r. MatchResult r (λ kind. letter ≡ kind_letter kind) (λ _. HasNoKind letter) };

    fn try_from(letter: u8) -> Result<Kind, NoLetter> {
        match letter {
            b'D' => Ok(Kind::Start),
            b'E' => Ok(Kind::Entry),
            b'W' => Ok(Kind::Withdrawal),
            b'O' => Ok(Kind::Opening),
            b'H' => Ok(Kind::Halt),
            b'R' => Ok(Kind::Resumption),
            b'C' => Ok(Kind::Closing),
            _ => Err(NoLetter),
        }
    }
}

impl From<Side> for u8 {
    ghost from_gives = { λ side r. r ≡ side_letter side };

    fn from(side: Side) -> u8 {
        match side {
            Side::Buy => b'B',
            Side::Sell => b'S',
        }
    }
}

impl TryFrom<u8> for Side {
    type Error = NoLetter;

    ghost try_from_gives = { λ letter r. result_ok r ≡ (if fits SideLetter letter then Some (side_of letter) else None) };

    fn try_from(letter: u8) -> Result<Side, NoLetter> {
        match letter {
            b'B' => Ok(Side::Buy),
            b'S' => Ok(Side::Sell),
            _ => Err(NoLetter),
        }
    }
}

impl From<OrderType> for u8 {
    ghost from_gives = { λ order_type r. r ≡ type_letter order_type };

    fn from(order_type: OrderType) -> u8 {
        match order_type {
            OrderType::Limit => b'L',
            OrderType::Market => b'M',
        }
    }
}

impl TryFrom<u8> for OrderType {
    type Error = NoLetter;

    ghost try_from_gives = { λ letter r. result_ok r ≡ (if fits TypeLetter letter then Some (type_of letter) else None) };

    fn try_from(letter: u8) -> Result<OrderType, NoLetter> {
        match letter {
            b'L' => Ok(OrderType::Limit),
            b'M' => Ok(OrderType::Market),
            _ => Err(NoLetter),
        }
    }
}

impl From<Qualifier> for u8 {
    ghost from_gives = { λ qualifier r. r ≡ qualifier_letter qualifier };

    fn from(qualifier: Qualifier) -> u8 {
        match qualifier {
            Qualifier::Unqualified => b'N',
            Qualifier::FillOrKill => b'F',
            Qualifier::ImmediateOrCancel => b'I',
        }
    }
}

impl TryFrom<u8> for Qualifier {
    type Error = NoLetter;

    ghost try_from_gives = { λ letter r. result_ok r ≡ (if fits QualifierLetter letter then Some (qualifier_of letter) else None) };

    fn try_from(letter: u8) -> Result<Qualifier, NoLetter> {
        match letter {
            b'N' => Ok(Qualifier::Unqualified),
            b'F' => Ok(Qualifier::FillOrKill),
            b'I' => Ok(Qualifier::ImmediateOrCancel),
            _ => Err(NoLetter),
        }
    }
}

impl From<Capacity> for u8 {
    ghost from_gives = { λ capacity r. r ≡ capacity_letter capacity };

    fn from(capacity: Capacity) -> u8 {
        match capacity {
            Capacity::Investor => b'I',
            Capacity::Dealer => b'D',
        }
    }
}

impl TryFrom<u8> for Capacity {
    type Error = NoLetter;

    ghost try_from_gives = { λ letter r. result_ok r ≡ (if fits CapacityLetter letter then Some (capacity_of letter) else None) };

    fn try_from(letter: u8) -> Result<Capacity, NoLetter> {
        match letter {
            b'I' => Ok(Capacity::Investor),
            b'D' => Ok(Capacity::Dealer),
            _ => Err(NoLetter),
        }
    }
}
