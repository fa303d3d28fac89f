// The first two places whose elements pass a test, and the first two of any two ranges at which one fails. Nothing here knows the subject.
#![tactic(auto)]

ghost use Rattle.std.specs.Prelude.{◌≡◌, ℕ, ◌+◌, ◌^◌, ◌<◌, Bool, if◌then◌else◌, length};
ghost use Rattle.std.specs.Fn.{FnReturnsAtPair};
ghost use Rattle.search.specs.Searches.{paired, tested, first_below, scan_pairs, Scanned};

// The least places i < j of a slice, by the first and then by the second, whose elements pass a test of two, or none where no two do.
pub fn first_pair<T, F: Fn(&T, &T) -> bool>(items: &[T], test: F) -> Option<(usize, usize)>
    ghost passes: { T → T → Bool }
    requires callable { F.IsAlwaysCallable test }
    requires answers { (x y : T) (r : Bool) → FnReturnsAtPair F.Fn test x y r → r ≡ passes x y }
    ensures value { (d : T) → result ≡ scan_pairs (paired passes items.now d) (length items.now) (length items.now) }
    ensures least { (d : T) → Scanned (paired passes items.now d) (length items.now) (length items.now) result }
{
    for (i, first) in items.iter().enumerate() {
        let passes_with = |second: &T| -> bool
            requires { F.IsAlwaysCallable test }
            ensures { FnReturnsAtPair F.Fn test first.entry.now second.entry.now result }
        { test(first, second) };
        if let Some(k) = items[i + 1..].iter().position(passes_with) {
            return Some((i, i + 1 + k));
        }
    }
    None
}

// A test of two places, each below a bound.
pub trait PairTest {
    // The bounds of the first and of the second place.
    ghost firsts: { Self → ℕ };

    ghost seconds: { Self → ℕ };

    // Whether only pairs are tested whose first place is below the second.
    ghost ordered: { Bool };

    // Whether the test fails at two places.
    ghost failing: { Self → ℕ → ℕ → Bool };

    fn bounds(&self) -> (usize, usize)
        ensures { result ≡ (firsts self.now, seconds self.now) };

    fn is_ordered(&self) -> bool
        ensures { result ≡ ordered };

    fn fails(&self, first: usize, second: usize) -> bool
        requires { (first < firsts self.now) × (second < seconds self.now) }
        ensures { result ≡ failing self.now first second };
}

// Where the second place begins.
fn start_of(ordered: bool, first: usize) -> usize
    requires { first + 1 < 2 ^ 64 }
    ensures { result ≡ (if ordered then first + 1 else 0) }
{
    if ordered { first + 1 } else { 0 }
}

// The least second place at which the test fails for a first place.
fn first_second<P: PairTest>(test: &P, first: usize) -> Option<usize>
    requires { first < P.PairTest.firsts test.now }
    ensures { result ≡ first_below (tested P.PairTest.ordered (P.PairTest.failing test.now) first) (P.PairTest.seconds test.now) }
{
    let (_, end) = test.bounds();
    let start = start_of(test.is_ordered(), first);
    for j in start..end {
        if test.fails(first, j) {
            return Some(j);
        }
    }
    None
}

// The least two places at which the test fails, by the first and then by the second, or none where it fails nowhere.
pub fn first_failure<P: PairTest>(test: &P) -> Option<(usize, usize)>
    ensures value { result ≡ scan_pairs (tested P.PairTest.ordered (P.PairTest.failing test.now)) (P.PairTest.firsts test.now) (P.PairTest.seconds test.now) }
    ensures least { Scanned (tested P.PairTest.ordered (P.PairTest.failing test.now)) (P.PairTest.firsts test.now) (P.PairTest.seconds test.now) result }
{
    let (firsts, _) = test.bounds();
    for i in 0..firsts {
        if let Some(j) = first_second(test, i) {
            return Some((i, j));
        }
    }
    None
}
