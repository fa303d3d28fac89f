ghost use Rattle.std.specs.Prelude.{◌≡◌, ◌<◌, ◌≤◌, length, take, get_or};
ghost use Rattle.lines.specs.Lines.{NoLineFeed, FirstLine};

// How many bytes stand before the first line feed; all of them where there is none.
fn length_of_first(text: &[u8]) -> usize
    ensures within { result ≤ length text.now }
    ensures line { NoLineFeed (take result text.now) }
    ensures ends { result < length text.now → get_or text.now result 0 ≡ 10 }
{
    let mut n = 0;
    while n < text.len() && text[n] != b'\n' {
        n += 1;
    }
    n
}

// The first line that ends in the text, without its line feed, and what follows that; none where no line ends.
pub fn first_line(text: &[u8]) -> Option<(&[u8], &[u8])>
    ensures { FirstLine text.now result }
{
    let (line, rest) = text.split_at(length_of_first(text));
    let (_, after) = rest.split_first()?;
    Some((line, after))
}
