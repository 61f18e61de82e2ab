// What a line is, and whether it is good where it stands.
ghost use Rattle.std.specs.Prelude.{◌≡◌, ℕ, suc, ◌≤◌, length, get_or, Some, MatchResult, MatchOption, false, true};
ghost use Rattle.rules.specs.Limits.{max_tables};
ghost use Rattle.rules.specs.Lines.{fields};
ghost use Rattle.rules.specs.Reading.{letter_of, form_of, stage, all_numbers, number_fields, values, misplaced, excess};
ghost use Rattle.fields.specs.Recorded.{ReadAs, Judged, JudgedAs};

use super::lines::{count_fields, field_of};
use super::numbers::read_number;
use rules::forms::{Form, Kind};
use rules::refusal::Reason;
use rules::{Edge, Method, Table};

// How many records of each kind stand in the lists, the stage of the latest line, 0 before the first, and the crew once its line is read.
#[derive(Clone, Copy, Default)]
pub struct Progress {
    pub tables: usize,
    pub methods: usize,
    pub edges: usize,
    // A number and no Option<Kind>: `judge` answers for any number (docs/PROMISES.md).
    pub latest: u64,
    // Any numbers: it is check 11 that refuses a crew. 0 before the crew's line, as 01's reading has them.
    pub workers: u64,
    pub scheme: u64,
}

// What a good line says: its kind, and its numbers in the first cells.
#[derive(Clone, Copy)]
pub struct Record {
    pub kind: Kind,
    pub cells: [u64; 4],
}

// A letter's byte decides the kind of its line and how many numbers follow.
#[tactic(auto, unfolding(rules::specs::Reading::letter_of))]
pub fn letter_of(letter: u8) -> Option<Form>
    ensures { result ≡ letter_of letter }
{
    let (kind, numbers) = match letter {
        b'T' => (Kind::Table, 3),
        b'M' => (Kind::Method, 4),
        b'E' => (Kind::Edge, 3),
        b'W' => (Kind::Crew, 2),
        _ => return None,
    };
    Some(Form { kind, numbers })
}

// What a line is follows from its first field: one byte.
fn form_of(first: &[u8]) -> Option<Form>
    ensures { result ≡ form_of first.now }
{
    match first {
        [letter] => letter_of(*letter),
        _ => None,
    }
}

// The numbers of a line that has so many.
fn read_values(line: &[u8], count: usize) -> Option<[u64; 4]>
    requires { (length (fields line.now) ≡ suc count) × (count ≤ 4) }
    ensures { ReadAs line.now result }
{
    let mut cells = [0u64; 4];
    for k in 0..count {
        cells[k] = read_number(field_of(line, k + 1))?;
    }
    Some(cells)
}

// Where a kind stands in the order of lines.
pub fn stage_of(kind: Kind) -> u64
    ensures { result ≡ stage kind }
{
    match kind {
        Kind::Table => 1,
        Kind::Method => 2,
        Kind::Edge => 3,
        Kind::Crew => 4,
    }
}

// 23: a table that is not the next, a kind after a later kind, or a second W.
#[tactic(auto, unfolding(rules::specs::Reading::misplaced))]
fn is_misplaced(kind: Kind, first: u64, progress: Progress) -> bool
    requires { progress.tables ≤ max_tables }
    ensures { result ≡ misplaced kind progress.latest progress.tables first }
{
    let stage = stage_of(kind);
    match kind {
        Kind::Table => first != progress.tables as u64 + 1 || stage < progress.latest,
        Kind::Method | Kind::Edge => stage < progress.latest,
        Kind::Crew => stage <= progress.latest,
    }
}

// 25: one more than a text may have of its kind.
#[tactic(auto, unfolding(rules::specs::Reading::excess))]
fn is_excess(kind: Kind, progress: Progress) -> bool
    ensures { result ≡ excess kind progress.tables progress.methods progress.edges }
{
    match kind {
        Kind::Table => Table::MAX_COUNT <= progress.tables as u64,
        Kind::Method => Method::MAX_COUNT <= progress.methods as u64,
        Kind::Edge => Edge::MAX_LINES <= progress.edges as u64,
        Kind::Crew => false,
    }
}

// A line with a known letter, where the lines before it came so far.
#[tactic(auto, unfolding(rules::specs::Reading::line_number_as))]
fn judge_form(line: &[u8], form: Form, progress: Progress) -> Result<Record, Reason>
    requires { (progress.tables ≤ max_tables) × (form.numbers ≤ 4) }
    ensures { JudgedAs (Some form) progress line.now result }
{
    if count_fields(line) != form.numbers + 1 {
        return Err(Reason::LineFields);
    }
    let cells = read_values(line, form.numbers).ok_or(Reason::LineNumber)?;
    if is_misplaced(form.kind, cells[0], progress) {
        return Err(Reason::LineOrder);
    }
    if is_excess(form.kind, progress) {
        return Err(Reason::LineExcess);
    }
    Ok(Record {
        kind: form.kind,
        cells,
    })
}

// A line, where the lines before it came so far: "the first that applies in this order" of 21, 22, 23 and 25, or its record.
#[tactic(auto, unfolding(rules::specs::Reading::line_number_as))]
pub fn judge(line: &[u8], progress: Progress) -> Result<Record, Reason>
    requires { progress.tables ≤ max_tables }
    ensures { Judged progress line.now result }
{
    let form = form_of(field_of(line, 0)).ok_or(Reason::LineFields)?;
    judge_form(line, form, progress)
}
