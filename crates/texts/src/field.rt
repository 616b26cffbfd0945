ghost use Rattle.std.specs.Prelude.{◌≡◌, ◌<◌, ◌≤◌, IfOk};
ghost use Rattle.texts.specs.Fields.{field_of};

use crate::number::number;
use crate::refusal::{Fault, Place, Refusal};
use std::ops::Range;

/// The number in a field, which must lie in `range`.
pub fn field(bytes: &[u8], range: Range<u32>, place: Place) -> Result<u32, Fault>
    ensures value { result ≡ field_of range.start range.end place bytes.now }
    ensures within { IfOk result (λ n. (range.start ≤ n) × (n < range.end)) }
{
    let n = number(bytes).map_err(|refusal| Fault { refusal, place })?;
    if !range.contains(&n) {
        return Err(Fault {
            refusal: Refusal::OutOfRange,
            place,
        });
    }
    Ok(n)
}
