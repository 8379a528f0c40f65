// A line: an order that rests in a book, by its number, side, price and the shares it has left.
ghost use Rattle.std.specs.Prelude.{◌≡◌, if◌then◌else◌, is_ok, nat_le};
ghost use Rattle.ordered_run.specs.Ranking.{Ranking};
ghost use Rattle.lines.specs.Kind.{Kind, Making, Sides, Taking};

use orders::Order;
use prices::Price;
use records::Side;

// More shares are to be taken off than the line has left.
#[derive(Clone, Copy, PartialEq, Eq, Debug)]
pub struct MoreThanLeft;

pub trait Line: Copy {
    ghost kind: { Kind Self };

    fn new(order: Order, number: u32, price: Price, quantity: u32) -> Self
        ensures { result ≡ kind.made order number price quantity };

    fn number(&self) -> u32
        ensures { result ≡ kind.number self.now };

    fn side(&self) -> Side
        ensures { result ≡ kind.side self.now };

    fn price(&self) -> Price
        ensures { result ≡ kind.price self.now };

    fn left(&self) -> u32
        ensures { result ≡ kind.left self.now };

    fn is_before(&self, other: &Self) -> bool
        ensures { result ≡ kind.precedes self.now other.now };

    // Takes up to the shares that are left; an error changes nothing.
    fn take_off(&mut self, shares: u32) -> Result<(), MoreThanLeft>
        ensures answer { is_ok result ≡ nat_le shares (kind.left self.old) }
        ensures after { self.new ≡ (if is_ok result then kind.taken shares self.old else self.old) };

    // A line tells the facts that it was made of.
    ghost making: { Making kind };

    // Nothing precedes itself, precedence is transitive, and of two with different numbers exactly one precedes the other.
    ghost ranking: { Ranking kind.number kind.precedes };

    // Buyers precede sellers, and on one side the better price precedes.
    ghost sides: { Sides kind };

    // Taking shares off changes what is left, and nothing else.
    ghost taking: { Taking kind };
}
