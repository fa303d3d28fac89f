// Numbers on a line, each after a space: 1 to 7 digits, with no leading 0 but 0 itself. Nothing here knows the subject.
#![tactic(auto)]

ghost use Rattle.std.specs.Prelude.{◌≡◌, ℕ, ◌+◌, ◌-◌, ◌*◌, ◌^◌, ◌<◌, ◌≤◌, ◌∷◌, ◌++◌, length, take, drop, MatchBool};
ghost use Rattle.std.specs.Str.Parse.{AllDigits, digits_value};
ghost use Rattle.numbers.specs.Numbers.{NumberRead, NumbersRead, IsPlainNumeral, NoDigitFirst};

// The number that at most seven digits write.
fn number_of(ds: &[u8]) -> u32
    requires digits { AllDigits 10 ds.now }
    requires short { length ds.now ≤ 7 }
    ensures { result ≡ digits_value 10 ds.now }
{
    let mut n: u32 = 0;
    for d in ds {
        n = n * 10 + u32::from(*d - b'0');
    }
    n
}

// How many bytes at the front are digits.
fn digit_count(s: &[u8]) -> usize
    ensures within { result ≤ length s.now }
    ensures digits { AllDigits 10 (take result s.now) }
    ensures stops { NoDigitFirst (drop result s.now) }
{
    let mut n = 0;
    while n < s.len() && s[n].is_ascii_digit() {
        n += 1;
    }
    n
}

// Whether digits are how a number is written: 1 to 7 of them, and a leading 0 only alone.
fn is_plain(ds: &[u8]) -> bool
    ensures { MatchBool result (IsPlainNumeral ds.now) (IsPlainNumeral ds.now → ⊥) }
{
    !ds.is_empty() && ds.len() <= 7 && (ds.len() == 1 || ds[0] != b'0')
}

// A space and a number at the front, and what follows.
fn read_number(s: &[u8]) -> Option<(u32, &[u8])>
    ensures { NumberRead s.now result }
{
    let [b' ', rest @ ..] = s else {
        return None;
    };
    let (front, back) = rest.split_at(digit_count(rest));
    if !is_plain(front) {
        return None;
    }
    Some((number_of(front), back))
}

// Just N numbers, each after a space.
pub fn read_numbers<const N: usize>(s: &[u8]) -> Option<[u32; N]>
    ensures { NumbersRead N s.now result }
{
    let mut ns = [0u32; N];
    let mut rest = s;
    for i in 0..N {
        let (n, after) = read_number(rest)?;
        ns[i] = n;
        rest = after;
    }
    if rest.is_empty() { Some(ns) } else { None }
}
