// What users call.
ghost use Rattle.std.specs.Prelude.{◌≡◌, ◌+◌, ◌-◌, [], ◌++◌, drop, is_ok, if◌then◌else◌, nat_le};
ghost use Rattle.refusal.specs.Refusals.{refuse_if, ok_unless};
ghost use Rattle.orders.specs.Sorting.{put_in, Sorted};
ghost use Rattle.queue.specs.Held.{count, room, waiting, held, first, others, Lent};

use crate::Queue;
use orders::Ranked;
use refusal::Refusal;
use sorting::sort;

impl<'a, T: Ranked> Queue<'a, T> {
    // An empty queue in the places given.
    pub fn new(places: &'a mut [T]) -> Queue<'a, T>
        ensures empty { held T.Ranked.before result ≡ [] }
        ensures none { count result ≡ 0 }
        ensures lent { (result.places.ghost_name ≡ places.entry.ghost_name) × (result.places.now ≡ places.old) }
    {
        Queue { places, len: 0 }
    }

    // How many wait.
    pub fn len(&self) -> usize
        ensures { result ≡ count self.now }
    {
        self.len
    }

    // One more joins, or is refused where every place is taken.
    #[tactic(auto, using(crate::proofs::Leaving::joined))]
    pub fn push(&mut self, x: T) -> Result<(), Refusal>
        ensures answer { result ≡ ok_unless (refuse_if (nat_le (room self.old) (count self.old)) Refusal.TooFewPlaces) tt }
        ensures joins { held T.Ranked.before self.new ≡ (if is_ok result then put_in T.Ranked.before x (held T.Ranked.before self.old) else held T.Ranked.before self.old) }
        ensures counted { count self.new ≡ (if is_ok result then count self.old + 1 else count self.old) }
        ensures refused { self.new.places.now ≡ (if is_ok result then self.new.places.now else self.old.places.now) }
        ensures lent { Lent (count self.new) self.old self.new }
    {
        if self.len >= self.places.len() {
            return Err(Refusal::TooFewPlaces);
        }
        self.places[self.len] = x;
        self.len += 1;
        Ok(())
    }

    // The least leaves, or none where none waits.
    pub fn pop(&mut self) -> Option<T>
        ensures least { result ≡ first (held T.Ranked.before self.old) }
        ensures leaves { held T.Ranked.before self.new ≡ others (held T.Ranked.before self.old) }
        ensures counted { count self.new ≡ count self.old - 1 }
        ensures lent { Lent (count self.old) self.old self.new }
    {
        let at = self.least()?;
        Some(self.take(at))
    }

    // Ends the queue: what waited then stands in order in the first places, and the others are as they were. Answers how many waited.
    pub fn into_sorted(self) -> usize
        ensures counted { result ≡ count self.entry }
        ensures laid { self.exit.0.now ≡ held T.Ranked.before self.entry ++ drop (count self.entry) self.entry.places.now }
        ensures one { Sorted T.Ranked.before (waiting self.entry) (held T.Ranked.before self.entry) }
    {
        let Queue { places, len } = self;
        sort(&mut places[..len]);
        len
    }
}
