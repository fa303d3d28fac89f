// Elements with a total order. Nothing here knows the subject.
#![tactic(auto)]

ghost use Rattle.std.specs.Prelude.{◌≡◌, Bool};
ghost use Rattle.std.specs.declared.cmp.Ordering.{Ordering};
ghost use Rattle.orders.specs.Ranks.{TotalOrder, compared};

// An element type whose `cmp` is a total order: what a sort and a queue ask for.
pub trait Ranked: Copy + Ord {
    // Whether the first comes before the second.
    ghost before: { Self → Self → Bool };

    // Of two that differ one comes before the other, and not both ways.
    ghost total: { TotalOrder before };

    // `cmp` answers by `before` and by nothing else.
    ghost answers: { (x y : Self) (r : Ordering) → (r ≡ Self.Ord.cmp x y) → r ≡ compared before x y };
}

// The same of two values. Apart from `comes_before`, since its proof is by hand, and an exchange of the two is to be refused in code.
fn is_less<T: Ranked>(x: T, y: T) -> bool
    ensures { result ≡ T.Ranked.before x y }
{
    x.cmp(&y).is_lt()
}

// Whether the first comes before the second.
pub fn comes_before<T: Ranked>(x: &T, y: &T) -> bool
    ensures { result ≡ T.Ranked.before x.now y.now }
{
    is_less(*x, *y)
}
