// What each byte of a record may be, by the record's kind.
ghost use Rattle.std.specs.Prelude.{◌≡◌};
ghost use Rattle.records.specs.Layout.{fits, misfit};

use crate::letters::{Capacity, OrderType, Qualifier, Side};

#[derive(Clone, Copy, PartialEq, Eq, Debug)]
pub enum ByteRule {
    Any,
    Zero,
    SideLetter,
    TypeLetter,
    QualifierLetter,
    CapacityLetter,
    // From 0x21 to 0x7E.
    Printable,
}

use ByteRule::{Any, CapacityLetter, Printable, QualifierLetter, SideLetter, TypeLetter, Zero};

// An entry: letters in 1 to 3 and 20, numbers from 4, 8 and 16, the account from 24.
pub const ENTRY: [ByteRule; 32] = [
    Any,
    SideLetter,
    TypeLetter,
    QualifierLetter,
    Any,
    Any,
    Any,
    Any,
    Any,
    Any,
    Any,
    Any,
    Zero,
    Zero,
    Zero,
    Zero,
    Any,
    Any,
    Any,
    Any,
    CapacityLetter,
    Zero,
    Zero,
    Zero,
    Printable,
    Printable,
    Printable,
    Printable,
    Printable,
    Printable,
    Printable,
    Printable,
];

// A start or a withdrawal: one number from 4.
pub const ONE_NUMBER: [ByteRule; 32] = [
    Any, Zero, Zero, Zero, Any, Any, Any, Any, Zero, Zero, Zero, Zero, Zero, Zero, Zero, Zero,
    Zero, Zero, Zero, Zero, Zero, Zero, Zero, Zero, Zero, Zero, Zero, Zero, Zero, Zero, Zero, Zero,
];

// The other kinds: the letter alone.
pub const LETTER_ALONE: [ByteRule; 32] = [
    Any, Zero, Zero, Zero, Zero, Zero, Zero, Zero, Zero, Zero, Zero, Zero, Zero, Zero, Zero, Zero,
    Zero, Zero, Zero, Zero, Zero, Zero, Zero, Zero, Zero, Zero, Zero, Zero, Zero, Zero, Zero, Zero,
];

// The account of an entry.
pub const ACCOUNT: [ByteRule; 8] = [
    Printable, Printable, Printable, Printable, Printable, Printable, Printable, Printable,
];

impl ByteRule {
    fn fits(self, byte: u8) -> bool
        ensures { result ≡ fits self byte }
    {
        match self {
            Any => true,
            Zero => byte == 0,
            SideLetter => Side::try_from(byte).is_ok(),
            TypeLetter => OrderType::try_from(byte).is_ok(),
            QualifierLetter => Qualifier::try_from(byte).is_ok(),
            CapacityLetter => Capacity::try_from(byte).is_ok(),
            Printable => byte.is_ascii_graphic(),
        }
    }
}

// The place of the first byte that breaks its rule.
pub(crate) fn first_misfit(rules: &[ByteRule], bytes: &[u8]) -> Option<usize>
    ensures { result ≡ misfit rules.now bytes.now }
{
    rules
        .iter()
        .zip(bytes)
        .position(|(rule, byte)| !rule.fits(*byte))
}
