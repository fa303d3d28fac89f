// The steps of a call by which the least leaves.
ghost use Rattle.std.specs.Prelude.{◌≡◌, ◌+◌, ◌∷◌, MatchOption};
ghost use Rattle.std.specs.List.{remove};
ghost use Rattle.std.specs.Ordering.{is_lt};
ghost use Rattle.queue.specs.Held.{count, waiting, held, Lent, Least};

use crate::Queue;
use orders::Ranked;

impl<'a, T: Ranked> Queue<'a, T> {
    // Where the least stands, or nowhere where none waits.
    pub(super) fn least(&self) -> Option<usize>
        ensures { MatchOption result (count self.now ≡ 0) (λ at. Least (λ x y. is_lt (T.cmp x y)) (waiting self.now) at) }
    {
        self.places[..self.len]
            .iter()
            .enumerate()
            .min_by_key(|(_, x)| *x)
            .map(|(at, _)| at)
    }

    // The one at a place leaves, where it is the least; those behind it move up.
    pub(super) fn take(&mut self, at: usize) -> T
        requires { Least (λ x y. is_lt (T.cmp x y)) (waiting self.old) at }
        ensures leaves { held T.Ranked.before self.old ≡ result ∷ held T.Ranked.before self.new }
        ensures counted { count self.new + 1 ≡ count self.old }
        ensures front { waiting self.new ≡ remove (waiting self.old) at }
        ensures lent { Lent (count self.new) self.old self.new }
    {
        let x = self.places[at];
        self.places.copy_within(at + 1..self.len, at);
        self.len -= 1;
        x
    }
}
