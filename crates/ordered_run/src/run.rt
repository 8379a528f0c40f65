// The run itself.
ghost use Rattle.std.specs.Prelude.{◌≡◌, ◌<◌, ◌≤◌, ◌↔◌, [], length, is_ok, is_some, IsSome, if◌then◌else◌, nat_lt};
ghost use Rattle.ordered_run.specs.Run.{first, laid, place, put_in, spot, takes, without};
ghost use Rattle.std.specs.List.{insert, remove, slice_get};
ghost use Rattle.ordered_run.specs.Theorems.{acts, stepped};

use crate::ranked::Ranked;
use thiserror::Error;

// One thing to do with a run: data and no closure, so that a law can be about every list of steps.
#[derive(Clone, Copy)]
pub enum Step<T> {
    Put(T),
    TakeOut(u32),
}

// Why a run refuses an item: each slot is used, or else an item has its key.
#[derive(Clone, Copy, PartialEq, Eq, Debug, Error)]
pub enum PutError {
    #[error("each slot is used")]
    Full,
    #[error("an item has the key")]
    SameKey,
}

// The items are the first `used` of the slots. A count beside a slice, and no `Vec`: the caller lends the memory, and nothing is allocated.
// The slice is a field here, as it is in a tape, and not in one type for both: inside a field's struct a caller could not prove what it holds after the drop.
// What a change keeps of the memory stands in its contract, since it is about two moments and an invariant is about one.
#[derive(Drop)]
pub struct OrderedRun<'a, T> {
    slots: &'a mut [T],
    used: usize,
    ghost within: { used ≤ length slots.now },
}

impl<'a, T: Ranked> OrderedRun<'a, T> {
    ghost use Rattle.ordered_run.specs.Items.{free, items, lender, memory};

    pub fn new(slots: &'a mut [T]) -> OrderedRun<'a, T>
        ensures none { items result ≡ [] }
        ensures whole { memory result ≡ slots.old }
        ensures lent { lender result ≡ slots.entry.ghost_name }
    {
        OrderedRun { slots, used: 0 }
    }

    fn as_slice(&self) -> &[T]
        ensures { result.now ≡ items self.now }
    {
        &self.slots[..self.used]
    }

    // How many slots no item has taken.
    fn free(&self) -> usize
        ensures { result ≡ free self.now }
    {
        self.slots.len() - self.used
    }

    // Puts `x` at `at`, or at the end where `at` is past it, and the later items move up by one. Refuses, and changes nothing, where each slot is used.
    #[tactic(auto, using(crate::proofs::Slots::insert_leaves, crate::proofs::Slots::insert_lays))]
    fn insert(&mut self, at: usize, x: T) -> Result<(), PutError>
        ensures answer { is_ok result ≡ nat_lt 0 (free self.old) }
        ensures after { items self.new ≡ (if is_ok result then insert (items self.old) at x else items self.old) }
        ensures past { memory self.new ≡ (if is_ok result then laid (items self.new) (memory self.old) else memory self.old) }
        ensures room { length (memory self.new) ≡ length (memory self.old) }
        ensures lent { lender self.new ≡ lender self.old }
    {
        if self.used == self.slots.len() {
            return Err(PutError::Full);
        }
        let at = at.min(self.used);
        self.slots.copy_within(at..self.used, at + 1);
        self.slots[at] = x;
        self.used += 1;
        Ok(())
    }

    // Takes out the item at `at`, and the later ones move down by one. `None`, which changes nothing, where there is none.
    #[tactic(auto, using(crate::proofs::Slots::remove_leaves))]
    fn remove(&mut self, at: usize) -> Option<T>
        ensures answer { result ≡ slice_get (items self.old) at }
        ensures after { items self.new ≡ remove (items self.old) at }
        ensures past { memory self.new ≡ (if is_some result then laid (items self.new) (memory self.old) else memory self.old) }
        ensures room { length (memory self.new) ≡ length (memory self.old) }
        ensures lent { lender self.new ≡ lender self.old }
    {
        if at >= self.used {
            return None;
        }
        let x = self.slots[at];
        self.slots.copy_within(at + 1..self.used, at);
        self.used -= 1;
        Some(x)
    }

    pub fn len(&self) -> usize
        ensures { result ≡ length (items self.now) }
    {
        self.as_slice().len()
    }

    // Where the first item with the key stands; a look from the front, since a run is in order of rank and not of the key.
    pub fn find(&self, sought: u32) -> Option<usize>
        ensures { result ≡ place T.key sought (items self.now) }
    {
        self.as_slice().iter().position(|x| x.key_of() == sought)
    }

    // Where the first item stands that does not precede `x`, or how many there are. From the front: `put` looks at every key anyway, and a binary search would ask that the run is in order.
    fn spot_of(&self, x: &T) -> usize
        ensures { result ≡ spot T.precedes x.now (items self.now) }
    {
        let items = self.as_slice();
        items
            .iter()
            .position(|y| !y.is_before(x))
            .unwrap_or(items.len())
    }

    // Puts `x` before the first item that does not precede it. Refuses, and changes nothing, where each slot is used or an item has its key.
    #[tactic(auto, using(crate::proofs::Runs::place_first, crate::proofs::Runs::inserted_is))]
    pub fn put(&mut self, x: T) -> Result<(), PutError>
        ensures answer { is_ok result ≡ takes T.key (length (memory self.old)) x (items self.old) }
        ensures full { (result ≡ Err PutError.Full) ↔ (length (memory self.old) ≤ length (items self.old)) }
        ensures same_key { (result ≡ Err PutError.SameKey) ↔ (length (items self.old) < length (memory self.old)) × IsSome (first T.key (T.key x) (items self.old)) }
        ensures after { items self.new ≡ put_in T.key T.precedes (length (memory self.old)) x (items self.old) }
        ensures past { memory self.new ≡ (if is_ok result then laid (items self.new) (memory self.old) else memory self.old) }
        ensures room { length (memory self.new) ≡ length (memory self.old) }
        ensures lent { lender self.new ≡ lender self.old }
    {
        if self.free() == 0 {
            return Err(PutError::Full);
        }
        if self.find(x.key_of()).is_some() {
            return Err(PutError::SameKey);
        }
        let at = self.spot_of(&x);
        self.insert(at, x)
    }

    // Takes the first item with the key out; the later ones move down by one.
    #[tactic(auto, using(crate::proofs::Runs::first_is, crate::proofs::Runs::without_is))]
    pub fn take_out(&mut self, sought: u32) -> Option<T>
        ensures answer { result ≡ first T.key sought (items self.old) }
        ensures after { items self.new ≡ without T.key sought (items self.old) }
        ensures past { memory self.new ≡ (if is_some result then laid (items self.new) (memory self.old) else memory self.old) }
        ensures room { length (memory self.new) ≡ length (memory self.old) }
        ensures lent { lender self.new ≡ lender self.old }
    {
        let at = self.find(sought)?;
        self.remove(at)
    }

    // Does one step, and says whether it changed the run: a yes or a no, of which neither is an error.
    pub fn step(&mut self, s: Step<T>) -> bool
        ensures answer { result ≡ acts T.key (length (memory self.old)) s (items self.old) }
        ensures after { items self.new ≡ stepped T.key T.precedes (length (memory self.old)) s (items self.old) }
        ensures room { length (memory self.new) ≡ length (memory self.old) }
        ensures lent { lender self.new ≡ lender self.old }
    {
        match s {
            Step::Put(x) => self.put(x).is_ok(),
            Step::TakeOut(sought) => self.take_out(sought).is_some(),
        }
    }

    // The slots, for who goes on with them. What is known of them is known of the result, and not of whoever lent them.
    pub fn into_slots(self) -> &'a mut [T]
        ensures whole { result.now ≡ memory self.entry }
        ensures lent { result.ghost_name ≡ lender self.entry }
    {
        let OrderedRun { slots, used: _ } = self;
        slots
    }
}
