ghost use Rattle.std.specs.Prelude.{◌≡◌, ◌≤◌};
ghost use Rattle.sse_outside.specs.Causes.{Rose};
ghost use Rattle.sse_link.specs.Counts as counts;

/// A count after one more, which stands still at the end of its type.
pub fn one_more(count: u64) -> u64
    ensures exact { result ≡ counts.one_more count }
    ensures rose { Rose count result }
    ensures later { count ≤ result }
{
    count.saturating_add(1)
}
