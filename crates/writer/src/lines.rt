// The three kinds of line of an answer: "Answer lines part their fields by one blank, not a tab, and end in LF."
ghost use Rattle.std.specs.Prelude.{◌∷◌, [], ◌≤◌, ◌+◌, length};
ghost use Rattle.rules.specs.Writing.{blank, digits_of, set_text, answer_line, plan_line, join_line, refusal_line};
ghost use Rattle.digits.specs.Put.{Put};

use digits::Line;
use rules::JoinStep;

const BLANK: u8 = b' ';

// A blank and a number.
fn put_field(line: &mut Line, n: u64)
    requires { line.old.at + length (blank ∷ digits_of n) ≤ length line.old.out.now }
    ensures { Put line.old line.new (blank ∷ digits_of n) }
{
    line.put_byte(BLANK);
    line.put_number(n);
}

// A blank and a set: two lines like those above, of another call.
fn put_set_field(line: &mut Line, n: u64, set: u64)
    requires { (line.old.at + length (blank ∷ set_text n set) ≤ length line.old.out.now) × (n ≤ 32) }
    ensures { Put line.old line.new (blank ∷ set_text n set) }
{
    line.put_byte(BLANK);
    line.put_set(n, set);
}

// A letter and two numbers: what P and X lines are.
fn put_two(line: &mut Line, letter: u8, a: u64, b: u64)
    requires { line.old.at + length (answer_line letter (digits_of a ∷ digits_of b ∷ [])) ≤ length line.old.out.now }
    ensures { Put line.old line.new (answer_line letter (digits_of a ∷ digits_of b ∷ [])) }
{
    line.put_byte(letter);
    put_field(line, a);
    put_field(line, b);
    line.put_byte(b'\n');
}

// "P: best cost, pairs."
#[tactic(auto, unfolding(rules::specs::Writing::plan_line))]
pub fn put_plan(line: &mut Line, best: u64, pairs: u64)
    requires { line.old.at + length (plan_line best pairs) ≤ length line.old.out.now }
    ensures { Put line.old line.new (plan_line best pairs) }
{
    put_two(line, b'P', best, pairs);
}

// "A refusal is one line: `X`, number, place, with single blanks.", of any number and place (docs/PROMISES.md), so no Refusal.
#[tactic(auto, unfolding(rules::specs::Writing::refusal_line))]
pub fn put_refusal(line: &mut Line, number: u64, place: u64)
    requires { line.old.at + length (refusal_line (record { number = number; place = place })) ≤ length line.old.out.now }
    ensures { Put line.old line.new (refusal_line (record { number = number; place = place })) }
{
    put_two(line, b'X', number, place);
}

// "J: outer tables, inner tables, method, estimate, cost"
pub fn put_join(line: &mut Line, n: u64, join: JoinStep, estimate: u64, cost: u64)
    requires { (line.old.at + length (join_line n join.outer join.inner join.method estimate cost) ≤ length line.old.out.now) × (n ≤ 32) }
    ensures { Put line.old line.new (join_line n join.outer join.inner join.method estimate cost) }
{
    line.put_byte(b'J');
    put_set_field(line, n, join.outer);
    put_set_field(line, n, join.inner);
    put_field(line, join.method);
    put_field(line, estimate);
    put_field(line, cost);
    line.put_byte(b'\n');
}
