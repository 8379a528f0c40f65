// The faults of the record layer.
ghost use Rattle.std.specs.Prelude.{◌≡◌};
ghost use Rattle.records.specs.Refusals.{record_row, row_of};

use crate::refusal::Refusal;

#[derive(Clone, Copy, PartialEq, Eq, Debug)]
pub enum RecordFault {
    // The file ends inside the record.
    Tail,
    // The first byte is the letter of no kind.
    Kind,
    // The byte at this place of the record is none that may stand there, and it is the first such.
    Byte(usize),
}

impl From<RecordFault> for Refusal {
    ghost from_gives = { λ fault r. row_of r ≡ record_row fault };

    fn from(fault: RecordFault) -> Refusal {
        let (number, word, byte) = match fault {
            RecordFault::Tail => (1, "TAIL", 0),
            RecordFault::Kind => (2, "KIND", 0),
            RecordFault::Byte(place) => (3, "BYTE", place),
        };
        Refusal {
            number,
            word,
            layer: 1,
            byte,
        }
    }
}
