// What holds of every run, whatever is put in and taken out.
ghost use Rattle.std.specs.Prelude.{◌≡◌, [], length};
ghost use Rattle.ordered_run.specs.Items.{items};
ghost use Rattle.ordered_run.specs.Theorems.{ReachedStaysOrdered, Sound, StepsKeepOrder, reached};

use crate::ranked::Ranked;
use crate::run::{OrderedRun, Step};

// A new run after the steps, which is ordered and has distinct keys whatever they are.
pub fn reach<'a, T: Ranked>(slots: &'a mut [T], steps: &[Step<T>]) -> OrderedRun<'a, T>
    ensures after { items result ≡ reached T.key T.precedes (length slots.old) steps.now [] }
    ensures sound { Sound T.key T.precedes (items result) }
{
    let mut run = OrderedRun::new(slots);
    for s in steps {
        let _ = run.step(*s);
    }
    run
}

// Putting one in and taking one out each keep a run ordered and its keys distinct.
pub fn steps_keep_order<T: Ranked>()
    ensures { StepsKeepOrder {X = T} T.key T.precedes }
{}

// Whatever is put in and taken out of an empty run, it is ordered and its keys are distinct.
pub fn reached_stays_ordered<T: Ranked>()
    ensures { ReachedStaysOrdered {X = T} T.key T.precedes }
{}
