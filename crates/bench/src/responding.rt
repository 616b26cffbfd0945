ghost use Rattle.std.specs.Prelude.{◌≡◌, length, Result};
ghost use Rattle.texts.specs.declared.refusal.Fault.{Fault};
ghost use Rattle.bench.specs.Benches.{Answered};

use crate::bench::Bench;
use sets::BitSet;
use texts::refusal::Refusal;
use texts::text::write_from_front;

/// Answers a sheet's text: its report from the front of `out`, or, where the text is refused, the line
/// `E,number,line,field`; and the length of the answer. Refused where a buffer is too short.
pub fn respond(
    bench: &mut Bench,
    text: &[u8],
    work: &mut [u8],
    out: &mut [u8],
) -> Result<usize, Refusal>
    ensures { (a : Result Unit Fault) × Answered a bench.old.sheet bench.new.sheet (length work.old) out.old result out.new }
{
    match bench.read(text) {
        Ok(()) => bench.report(work, &mut BitSet::new(), out),
        Err(fault) => write_from_front(&fault, out),
    }
}
