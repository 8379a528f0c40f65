// What a run asks of its items: a key, and which of two precedes the other.
ghost use Rattle.std.specs.Prelude.{◌≡◌, ℕ, Bool};
ghost use Rattle.ordered_run.specs.Ranking.{Ranking};

// The answer of `is_before` depends on the two things alone, and keeps the laws of a ranking.
pub trait Ranked: Copy {
    ghost key: { Self → ℕ };

    ghost precedes: { Self → Self → Bool };

    fn key_of(&self) -> u32
        ensures { result ≡ key self.now };

    fn is_before(&self, other: &Self) -> bool
        ensures { result ≡ precedes self.now other.now };

    ghost ranking: { Ranking key precedes };
}
