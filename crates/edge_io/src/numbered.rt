// The numbers of the calls that a source or a sink in memory fails.

ghost use Rattle.std.specs.Prelude.{◌≡◌, ◌↔◌, IsTrue, Contains};
ghost use Rattle.edge_io.specs.Memory.{one_more};

// How many bytes a source or a sink in memory gives or takes in one call, at most.
pub(crate) const MOST: usize = 64;

pub(crate) fn is_listed(numbers: &[u32], call: u64) -> bool
    ensures { IsTrue result ↔ Contains numbers.now call }
{
    for number in numbers {
        if u64::from(*number) == call {
            return true;
        }
    }
    false
}

pub(crate) fn next_count(count: u64) -> u64
    ensures { result ≡ one_more count }
{
    count.saturating_add(1)
}
