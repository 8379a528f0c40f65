// What is told of a refusal, whichever layer refuses.
ghost use Rattle.std.specs.Prelude.{Some};
ghost use Rattle.records.specs.RefusalText.{refusal_text};

use std::fmt;

// What is printed, so `number` and `layer` are the numbers of the table and no enums; the byte is 0 where none is at fault, as it is printed.
#[derive(Clone, Copy, PartialEq, Eq, Debug)]
pub struct Refusal {
    pub number: u8,
    pub word: &'static str,
    pub layer: u8,
    pub byte: usize,
}

impl fmt::Display for Refusal {
    ghost output = { λ r. Some (refusal_text r.number r.word.now r.layer r.byte) };

    fn fmt<W: fmt::Write>(&self, f: &mut fmt::Formatter<W>) -> fmt::Result {
        let Refusal {
            number,
            word,
            layer,
            byte,
        } = *self;
        write!(f, "{number} {word}, layer {layer}, byte {byte}")
    }
}
