//! Counts of calls and of faults.
ghost use Rattle.std.specs.Prelude.{◌≡◌};
ghost use Rattle.osek_io.specs.Counts.{one_more, is_listed};

/// One more, where the count can rise.
pub fn one_more(count: u64) -> u64
    ensures { result ≡ one_more count }
{
    count.saturating_add(1)
}

/// Whether the next call is to fail, after so many calls.
pub fn is_listed(fails: &[u64], calls: u64) -> bool
    ensures { result ≡ is_listed fails.now calls }
{
    let next = one_more(calls);
    fails.iter().any(|number| *number == next)
}
