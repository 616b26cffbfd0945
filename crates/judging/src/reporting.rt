ghost use Rattle.std.specs.Prelude.{◌≡◌, ℕ, ◌≤◌, false, length, IfOk, OnErr};
ghost use Rattle.sheets.specs.Fits.{Fits};
ghost use Rattle.sheets.specs.Model.{model_of};
ghost use Rattle.judging.specs.Reporting.{report_text, report_answer, filled, kept_report};

use crate::judge::check_set;
use crate::work_buffer::WorkBuffer;
use sets::StateSet;
use sheets::sheet::Sheet;
use texts::refusal::Refusal;
use texts::text::{Measured, Text};
use texts::writer::Writer;

/// The verdict, the rounds and the number of states of each line.
#[derive(Drop)]
struct Summaries<'a> {
    lines: &'a [[u8; 3]],
}

/// Each line is written as `R,line,verdict,rounds,states`.
impl Text for Summaries<'_> {
    ghost text = { λ summaries. kept_report summaries.lines.now };

    fn write(&self, writer: &mut Writer<'_>) {
        for (k, [verdict, rounds, members]) in self.lines.iter().enumerate() {
            let verdict = usize::from(*verdict);
            let rounds = usize::from(*rounds);
            let members = usize::from(*members);
            writer.line(b'R', &[k, verdict, rounds, members]);
        }
    }
}

/// Writes a line for each formula line of the sheet from the front of `out`, and answers the length of the
/// text; later bytes stay, and the set is left empty. No report has more than 1,152 bytes.
#[tactic(auto, using(crate::proofs::Summaries::report_is, crate::proofs::ReportLength::sheet_report_short), unfolding(sheets::specs::Model::model_of))]
pub fn report<S: StateSet>(
    sheet: &Sheet,
    work: &mut [u8],
    set: &mut S,
    out: &mut [u8],
) -> Result<usize, Refusal>
    ensures value { Fits sheet.now → result ≡ report_answer (model_of sheet.now) (length work.old) (length out.old) S.CAPACITY }
    ensures text { Fits sheet.now → out.new ≡ filled result (report_text (model_of sheet.now)) out.old }
    ensures unchanged { OnErr result ((set.new ≡ set.old) × (out.new ≡ out.old)) }
    ensures short { length (report_text (model_of sheet.now)) ≤ 1152 }
    ensures done { IfOk result (λ n. (n ≤ length out.new) × ((k : ℕ) → S.holds set.new k ≡ false)) }
{
    if sheet.is_blank() {
        return Err(Refusal::Blank);
    }
    let mut buffer = WorkBuffer::split(work)?;
    buffer.summarize(sheet);
    let WorkBuffer { summaries, .. } = buffer;
    let summaries = Summaries {
        lines: &summaries[..sheet.rows().len()],
    };
    let text = Measured::new(&summaries);
    if text.size() > out.len() {
        return Err(Refusal::ShortBuffer);
    }
    check_set::<S>(sheet)?;
    let length = text.write_from_front(out)?;
    set.clear();
    Ok(length)
}
