//! Calls that are to fail by their numbers.

ghost use Rattle.std.specs.Prelude.{◌≡◌, ◌↔◌, IsTrue, Contains};
ghost use Rattle.synth_io.specs.Counts.{next_count};

/// Counts a call, and says whether its number is listed.
pub fn is_next_listed(fails: &[u64], calls: &mut u64) -> bool
    ensures count { calls.new ≡ next_count calls.old }
    ensures listed { IsTrue result ↔ Contains fails.now calls.new }
{
    *calls = calls.saturating_add(1);
    fails.contains(calls)
}
