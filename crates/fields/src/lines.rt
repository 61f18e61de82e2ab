// Lines and fields as the parts of the caller's bytes that they occupy.
ghost use Rattle.std.specs.Prelude.{◌≡◌, ◌≤◌, length};
ghost use Rattle.rules.specs.Lines.{fields, field};
ghost use Rattle.fields.specs.Spans.{span};

// How many bytes stand before the first byte `by`, or before the end.
pub fn span_to(bytes: &[u8], by: u8) -> usize
    ensures { (result ≡ span by bytes.now) × (result ≤ length bytes.now) }
{
    bytes.iter().position(|&b| b == by).unwrap_or(bytes.len())
}

// Field k of a line, from 0: the part of it between two tabs; past the last field, nothing.
pub fn field_of<'a>(line: &'a [u8], k: usize) -> &'a [u8]
    ensures { result.now ≡ field line.now k }
{
    line.split(|&b| b == b'\t').nth(k).unwrap_or(&[])
}

// How many fields a line has: one more than it has tabs.
pub fn count_fields(line: &[u8]) -> usize
    ensures { result ≡ length (fields line.now) }
{
    line.iter().filter(|&&b| b == b'\t').count() + 1
}
