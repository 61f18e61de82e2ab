// The C boundary.
#![tactic(auto)]

ghost use Rattle.rules.specs.Text.{Written};

use text::plan_bytes;

#[unsafe(no_mangle)]
pub extern "C" fn plan_text(query: &[u8], answer: &mut [u8]) -> usize
    ensures { Written query.now answer.old answer.new result }
{
    plan_bytes(query, answer)
}
