// A price as text.
ghost use Rattle.std.specs.Prelude.{Some};
ghost use Rattle.prices.specs.Text.{price_text};

use crate::price::Price;
use std::fmt;

// With four places, as 0.1000.
impl fmt::Display for Price {
    ghost output = { λ p. Some (price_text p.units) };

    fn fmt<W: fmt::Write>(&self, f: &mut fmt::Formatter<W>) -> fmt::Result {
        let whole = self.units / 10_000;
        let places = self.units % 10_000;
        write!(f, "{whole}.{places:04}")
    }
}
