// Making a price from a number, and reading it back.
ghost use Rattle.std.specs.Prelude.{◌≡◌, if◌then◌else◌, Some, None};
ghost use Rattle.std.specs.Option.{option_map};
ghost use Rattle.std.specs.Result.{result_ok};
ghost use Rattle.prices.specs.Rule.{lawful_by, lawful_price};

use crate::price::{NoPrice, Price};
use crate::steps::{StepRow, house_steps, step_at};

fn is_lawful(rows: &[StepRow], units: u32) -> bool
    ensures { result ≡ lawful_by rows.now units }
{
    let step = step_at(rows, units);
    (1..=10_000_000).contains(&units) && 0 < step && units.is_multiple_of(step)
}

// The price of so many units of 0.0001, if the rule has one there.
impl TryFrom<u32> for Price {
    type Error = NoPrice;

    ghost try_from_gives = { λ units r. option_map (λ p. p.units) (result_ok r) ≡ (if lawful_price units then Some units else None) };

    #[tactic(auto, unfolding(crate::specs::Rule::lawful_price))]
    fn try_from(units: u32) -> Result<Price, NoPrice> {
        if is_lawful(&house_steps(), units) {
            Ok(Price { units })
        } else {
            Err(NoPrice)
        }
    }
}

impl Price {
    pub fn units(self) -> u32
        ensures { result ≡ self.units }
    {
        self.units
    }
}
