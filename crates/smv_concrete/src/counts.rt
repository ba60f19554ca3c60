// Products of counts, within a limit.
ghost use Rattle.std.specs.Prelude.{◌≤◌, ◌*◌};
ghost use Rattle.smv_concrete.specs.Counts.{IsBeyond, IsProduct, IsWithin};

/// The product of some counts where it is at most the limit, and none where it is above.
pub(crate) fn product(limit: usize, counts: &[usize]) -> Option<usize>
    requires { 1 ≤ limit }
    ensures { IsProduct limit counts.now result }
{
    match counts {
        [] => Some(1),
        [first, more @ ..] => match product(limit, more) {
            Some(count) => times(limit, *first, count),
            None => beyond(*first),
        },
    }
}

// A product of two where it is at most the limit.
fn times(limit: usize, first: usize, count: usize) -> Option<usize>
    ensures { IsWithin limit (first * count) result }
{
    match first.checked_mul(count) {
        Some(number) => { if number <= limit { Some(number) } else { None } }
        None => None,
    }
}

// Nothing times what is beyond the limit is nothing.
fn beyond(first: usize) -> Option<usize>
    ensures { IsBeyond first result }
{
    if first == 0 { Some(0) } else { None }
}
