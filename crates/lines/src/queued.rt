// A line as a ranked thing, whatever its kind. `Ranked` is no supertrait of `Line`: the laws of a market are about a `Kind`, and key and rank would stand twice with an equation to join them.
ghost use Rattle.std.proofs.Common.{rules};

use crate::line::Line;
use ordered_run::Ranked;

#[derive(Clone, Copy)]
pub struct Queued<L>(pub L);

impl<L: Line> Ranked for Queued<L> {
    ghost key = { λ q. L.kind.number q.0 };

    ghost precedes = { λ x y. L.kind.precedes x.0 y.0 };

    ghost ranking = { Prim.search rules };

    fn key_of(&self) -> u32 {
        self.0.number()
    }

    fn is_before(&self, other: &Queued<L>) -> bool {
        self.0.is_before(&other.0)
    }
}
