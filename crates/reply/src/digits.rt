// Bytes put into places from the last to the first, each in front of those that stand there; the places further in front keep what they held.
ghost use Rattle.std.specs.Prelude.{◌≡◌, ◌+◌, ◌≤◌, ◌∷◌, ◌++◌, drop, take, decimal};

// More places than a line takes: the longest has five numbers of up to 20 digits, each with a space, then a letter, a space and a line feed.
pub const PLACES: usize = 128;

// Puts a byte in front of those from `end` on, and answers where it stands.
#[inline(always)]
pub(crate) fn put_byte(byte: u8, places: &mut [u8; PLACES], end: usize) -> usize
    requires { (1 ≤ end) × (end ≤ 128) }
    ensures at { result + 1 ≡ end }
    ensures bytes { drop result places.new ≡ byte ∷ drop end places.old }
    ensures before { take result places.new ≡ take result places.old }
{
    let at = end - 1;
    places[at] = byte;
    at
}

// Puts a number in decimal in front of those from `end` on, and answers where it begins.
#[inline(always)]
pub(crate) fn put_number(number: u64, places: &mut [u8; PLACES], end: usize) -> usize
    requires { (20 ≤ end) × (end ≤ 128) }
    ensures room { end ≤ result + 20 }
    ensures within { result ≤ end }
    ensures bytes { drop result places.new ≡ decimal number ++ drop end places.old }
    ensures before { take result places.new ≡ take result places.old }
{
    let mut left = number;
    let mut at = end;
    while left >= 10 {
        at -= 1;
        places[at] = b'0' + (left % 10) as u8;
        left /= 10;
    }
    put_byte(b'0' + left as u8, places, at)
}

// Puts a space and a number in decimal in front of those from `end` on, and answers where they begin.
#[inline(always)]
#[tactic(auto, using(crate::proofs::Decimals::before_both))]
pub(crate) fn put_spaced(number: u64, places: &mut [u8; PLACES], end: usize) -> usize
    requires { (21 ≤ end) × (end ≤ 128) }
    ensures room { end ≤ result + 21 }
    ensures within { result ≤ end }
    ensures bytes { drop result places.new ≡ 32 ∷ (decimal number ++ drop end places.old) }
    ensures before { take result places.new ≡ take result places.old }
{
    let at = put_number(number, places, end);
    put_byte(b' ', places, at)
}
