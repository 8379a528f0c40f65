// A tape: one book's trades, written one after another into lent memory.
#![tactic(auto)]

ghost use Rattle.std.specs.Prelude.{◌≡◌, ◌≤◌, [], ◌∷◌, ◌++◌, length, is_ok, if◌then◌else◌, nat_lt};
ghost use Rattle.ordered_run.specs.Run.{laid};

use rules::Trade;
use thiserror::Error;

#[cfg(test)]
mod tests;

// Each place is used.
#[derive(Clone, Copy, PartialEq, Eq, Debug, Error)]
#[error("each place is used")]
pub struct Full;

// The trades are in the first `used` of the places. A count beside a slice, and no `Vec`: the caller lends the memory, and nothing is allocated.
// The slice is a field here, as it is in a run, and not in one type for both: inside a field's struct a caller could not prove what it holds after the drop.
// What a change keeps of the memory stands in its contract, since it is about two moments and an invariant is about one.
#[derive(Drop)]
pub struct Tape<'a> {
    places: &'a mut [Trade],
    used: usize,
    ghost within: { used ≤ length places.now },
}

impl<'a> Tape<'a> {
    ghost use Rattle.tape.specs.Written.{free, lender, memory, written};

    // An empty tape, whatever the memory held.
    pub fn new(places: &'a mut [Trade]) -> Tape<'a>
        ensures none { written result ≡ [] }
        ensures whole { memory result ≡ places.old }
        ensures lent { lender result ≡ places.entry.ghost_name }
    {
        Tape { places, used: 0 }
    }

    // The trades, in the order in which they were written.
    pub fn trades(&self) -> &[Trade]
        ensures { result.now ≡ written self.now }
    {
        &self.places[..self.used]
    }

    // The places that no trade has taken.
    pub fn free(&self) -> usize
        ensures { result ≡ free self.now }
    {
        self.places.len() - self.used
    }

    // A trade takes the next place; an error, which changes nothing, where there is none.
    #[tactic(auto, using(ordered_run::proofs::Slots::laid_same, ordered_run::proofs::Slots::push_lays))]
    pub fn write(&mut self, trade: Trade) -> Result<(), Full>
        ensures answer { is_ok result ≡ nat_lt 0 (free self.old) }
        ensures after { written self.new ≡ (if is_ok result then written self.old ++ trade ∷ [] else written self.old) }
        ensures past { memory self.new ≡ laid (written self.new) (memory self.old) }
        ensures room { length (memory self.new) ≡ length (memory self.old) }
        ensures lent { lender self.new ≡ lender self.old }
    {
        if self.used == self.places.len() {
            return Err(Full);
        }
        self.places[self.used] = trade;
        self.used += 1;
        Ok(())
    }

    // The places, for who goes on with them.
    pub fn into_places(self) -> &'a mut [Trade]
        ensures whole { result.now ≡ memory self.entry }
        ensures lent { result.ghost_name ≡ lender self.entry }
    {
        let Tape { places, used: _ } = self;
        places
    }
}
