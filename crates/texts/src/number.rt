ghost use Rattle.std.specs.Prelude.{◌≡◌, ◌<◌};
ghost use Rattle.texts.specs.Numbers.{number_of, number_read, ReadsDecimals, OnlyDecimals};

use crate::refusal::Refusal;

/// The number that a field of one to five decimal digits without a leading zero stands for.
pub fn number(bytes: &[u8]) -> Result<u32, Refusal>
    ensures value { result ≡ number_of bytes.now }
    ensures read { result ≡ number_read bytes.now }
    ensures decimals { ReadsDecimals × OnlyDecimals }
{
    digits(bytes)
}

/// That number, with the one clause that each exit has to show; the others follow from it.
fn digits(bytes: &[u8]) -> Result<u32, Refusal>
    ensures { result ≡ number_read bytes.now }
{
    if matches!(bytes, [] | [_, _, _, _, _, _, ..] | [b'0', _, ..]) {
        return Err(Refusal::NotANumber);
    }
    let mut n = 0;
    for b in bytes {
        match *b {
            b'0'..=b'9' => n = n * 10 + u32::from(*b - b'0'),
            _ => return Err(Refusal::NotANumber),
        }
    }
    Ok(n)
}
