// "Cost of one table is its scan cost.": what stands in the memo before the first turn.
ghost use Rattle.std.specs.Prelude.{◌≡◌, ◌≤◌, length};
ghost use Rattle.skips.specs.Vectors.{written};

// Writes the scan costs into the rows of one table, which are the memo's first, in the tables' order.
pub fn lay_scans(scans: &[u64], costs: &mut [u64])
    requires { length scans.now ≤ length costs.old }
    ensures { costs.new ≡ written costs.old 0 scans.now }
{
    // No `copy_from_slice`: that is memmove, which an archive for C would need from outside.
    for i in 0..scans.len() {
        costs[i] = scans[i];
    }
}
