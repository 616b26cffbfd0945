ghost use Rattle.std.specs.Prelude.{◌≡◌, ◌≤◌, length, position, ◌==◌};
ghost use Rattle.texts.specs.Cuts.{before, after, count};

/// Where `b` stands first in `bytes`.
fn find(bytes: &[u8], b: u8) -> Option<usize>
    ensures { result ≡ position (λ c. c == b) bytes.now }
{
    bytes.iter().position(|c| *c == b)
}

/// What stands before the first `b`, and what stands after it.
pub fn cut(bytes: &[u8], b: u8) -> (&[u8], &[u8])
    ensures front { result.0.now ≡ before b bytes.now }
    ensures back { result.1.now ≡ after b bytes.now }
{
    match find(bytes, b) {
        Some(i) => (&bytes[..i], &bytes[i + 1..]),
        None => (bytes, &[]),
    }
}

/// How many of `bytes` are `b`.
pub fn occurrences(bytes: &[u8], b: u8) -> usize
    ensures value { result ≡ count b bytes.now }
    ensures bound { result ≤ length bytes.now }
{
    bytes
        .iter()
        .fold(0usize, |n, c| n.wrapping_add(usize::from(*c == b)))
}
