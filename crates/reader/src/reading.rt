// The lines in a row: each good line's record goes to the columns of its kind.
ghost use Rattle.std.specs.Prelude.{◌≡◌, false};
ghost use Rattle.rules.specs.Reading.{excess, unfit, reading};
ghost use Rattle.reader.specs.Records.{Within, Spare, SameColumns, lists_of, progress_of, reading_of};
ghost use Rattle.reader.specs.StoreLaws.{Stored};

use super::columns::Columns;
use fields::kinds::{Progress, Record, judge, stage_of};
use fields::lines::span_to;
use rules::forms::Kind;
use rules::refusal::{Reason, Refusal};

const MAX_BYTES: usize = 16_384;

// A refused text, and how far its lines were good.
#[derive(Clone, Copy)]
pub struct Stopped {
    pub refusal: Refusal,
    pub progress: Progress,
}

// 24: too long, or its last byte ends no line.
#[tactic(auto, unfolding(rules::specs::Reading::unfit))]
fn is_unfit(text: &[u8]) -> bool
    ensures { result ≡ unfit text.now }
{
    MAX_BYTES < text.len() || text.last().is_some_and(|&b| b != b'\n')
}

impl<'a> Columns<'a> {
    // A good line's record goes to the end of the columns of its kind.
    #[tactic(auto, unfolding(rules::specs::Reading::excess))]
    fn store(&mut self, entry: Record, progress: Progress) -> Progress
        requires within { Within progress }
        requires fits { excess entry.kind progress.tables progress.methods progress.edges ≡ false }
        ensures stored { Stored entry.kind entry.cells progress result (lists_of self.old) (lists_of self.new) }
        ensures same_columns { SameColumns self.new self.old }
    {
        let cells = entry.cells;
        let mut next = progress;
        next.latest = stage_of(entry.kind);
        match entry.kind {
            Kind::Table => {
                let at = progress.tables;
                self.rows[at] = cells[1];
                self.scans[at] = cells[2];
                next.tables = at + 1;
            }
            Kind::Method => {
                let at = progress.methods;
                self.fixed[at] = cells[0];
                self.per_outer[at] = cells[1];
                self.per_inner[at] = cells[2];
                self.per_result[at] = cells[3];
                next.methods = at + 1;
            }
            Kind::Edge => {
                let at = progress.edges;
                self.left[at] = cells[0];
                self.right[at] = cells[1];
                self.divisors[at] = cells[2];
                next.edges = at + 1;
            }
            Kind::Crew => {
                next.workers = cells[0];
                next.scheme = cells[1];
            }
        }
        next
    }
}

// Reads a text into columns, or refuses it.
pub fn read(text: &[u8], columns: &mut Columns) -> Result<Progress, Stopped>
    ensures read { reading_of result (lists_of columns.new) ≡ reading text.now }
    ensures spare { Spare (progress_of result) (lists_of columns.old) (lists_of columns.new) }
    ensures within { Within (progress_of result) }
    ensures same_columns { SameColumns columns.new columns.old }
{
    let mut progress = Progress::default();
    if is_unfit(text) {
        return Err(Stopped {
            refusal: Reason::TextEnd.at(0),
            progress,
        });
    }
    let mut rest = text;
    let mut place = 1;
    // `split` would be no plainer: it gives a part more after the last line's end, and one of an empty text.
    while !rest.is_empty() {
        let end = span_to(rest, b'\n');
        let entry = judge(&rest[..end], progress).map_err(|reason| Stopped {
            refusal: reason.at(place),
            progress,
        })?;
        rest = &rest[end + 1..];
        // The line is counted beside the text: it is told where reading stops.
        place += 1;
        progress = columns.store(entry, progress);
    }
    if progress.latest != stage_of(Kind::Crew) {
        return Err(Stopped {
            refusal: Reason::LineOrder.at(place),
            progress,
        });
    }
    Ok(progress)
}
