ghost use Rattle.std.specs.Prelude.{◌≡◌, ◌%◌, ◌^◌, false, true, if◌then◌else◌, nat_lt};
ghost use Rattle.bits.specs.Bits.{bit};
ghost use Rattle.matrices.specs.Numbers.{plus, turned};
ghost use Rattle.amplitude.specs.Sizes.{Small};
ghost use Rattle.amplitude.specs.Pairs.{entry, is_on};

use matrices::Amplitude;
use register::rows::PlainRow;

// What is done to the pairs of amplitudes whose indices differ at one wire: a plain gate, H, or an exchange where a control is 1.
#[derive(Clone, Copy, Debug, PartialEq, Eq)]
pub enum PairGate {
    Plain(PlainRow),
    H,
    Flip(u8),
}

// Minus a number.
#[tactic(auto, using(crate::proofs::Words::minus_word))]
fn negated(x: Amplitude) -> Amplitude
    requires { Small (2 ^ 60) x }
    ensures value { result ≡ turned 4 x }
    ensures small { Small (2 ^ 60) result }
{
    Amplitude {
        a: -x.a,
        b: -x.b,
        c: -x.c,
        d: -x.d,
    }
}

// The turns by four of n turns: minus the number, where there is one more of them than eights.
fn half_turned(n: u8, x: Amplitude) -> Amplitude
    requires { Small (2 ^ 60) x }
    ensures value { result ≡ (if nat_lt (n % 8) 4 then x else turned 4 x) }
    ensures small { Small (2 ^ 60) result }
{
    if n % 8 < 4 { x } else { negated(x) }
}

// The turns that are left.
#[tactic(auto, using(crate::proofs::Words::minus_word, crate::proofs::Words::same_word))]
fn quarter_turned(n: u8, x: Amplitude) -> Amplitude
    requires { Small (2 ^ 60) x }
    ensures { result ≡ turned (n % 4) x }
{
    match n % 4 {
        0 => x,
        1 => Amplitude {
            a: -x.d,
            b: x.a,
            c: x.b,
            d: x.c,
        },
        2 => Amplitude {
            a: -x.c,
            b: -x.d,
            c: x.a,
            d: x.b,
        },
        _ => Amplitude {
            a: -x.b,
            b: -x.c,
            c: -x.d,
            d: x.a,
        },
    }
}

// A number times ω to the n.
#[tactic(auto, using(crate::proofs::Words::turned_parts))]
fn turned(n: u8, x: Amplitude) -> Amplitude
    requires { Small (2 ^ 60) x }
    ensures { result ≡ turned n x }
{
    quarter_turned(n, half_turned(n, x))
}

// The sum of two numbers.
#[tactic(auto, using(crate::proofs::Words::sum_word))]
fn sum(x: Amplitude, y: Amplitude) -> Amplitude
    requires x_small { Small (2 ^ 60) x }
    requires y_small { Small (2 ^ 60) y }
    ensures { result ≡ plus x y }
{
    Amplitude {
        a: x.a + y.a,
        b: x.b + y.b,
        c: x.c + y.c,
        d: x.d + y.d,
    }
}

// Both amplitudes of a pair after a plain gate of any row, first the one where the wire is 0.
fn plain_pair(row: PlainRow, low: Amplitude, high: Amplitude) -> (Amplitude, Amplitude)
    requires low_small { Small (2 ^ 60) low }
    requires high_small { Small (2 ^ 60) high }
    ensures { result ≡ (entry (PairGate.Plain row) true false low high, entry (PairGate.Plain row) true true high low) }
{
    let from0 = turned(row.turn0, low);
    let from1 = turned(row.turn1, high);
    if row.flips {
        (from1, from0)
    } else {
        (from0, from1)
    }
}

// Both amplitudes of a pair after a gate, first the one where the wire is 0; on: the control is 1.
pub(crate) fn pair_after(
    gate: PairGate,
    on: bool,
    low: Amplitude,
    high: Amplitude,
) -> (Amplitude, Amplitude)
    requires low_small { Small (2 ^ 60) low }
    requires high_small { Small (2 ^ 60) high }
    ensures { result ≡ (entry gate on false low high, entry gate on true high low) }
{
    match gate {
        PairGate::Plain(row) => plain_pair(row, low, high),
        PairGate::H => (sum(low, high), sum(low, negated(high))),
        PairGate::Flip(_) => if on { (high, low) } else { (low, high) },
    }
}
