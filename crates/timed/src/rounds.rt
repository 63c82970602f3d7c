use bundle::Refusal;

// Fills the items so often, and keeps those that the last round filled; none if it is refused.
pub(crate) fn repeat<T: Drop, F: FnMut(&mut [T]) -> Result<usize, Refusal>>(
    rounds: u32,
    items: &mut Vec<T>,
    mut fill: F,
)
    requires { F.IsAlwaysCallable fill }
{
    let mut count = 0;
    for _round in 0..rounds {
        count = fill(items).unwrap_or(0);
    }
    items.truncate(count);
}
