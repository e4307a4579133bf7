// Items in groups of one size.
ghost use Rattle.std.specs.Prelude.{◌≡◌, ◌<◌, Ok, Err, MatchResult};
ghost use Rattle.clib.specs.Groups.{groups_due};

use crate::error::Refusal;

// The items in groups of N, with none left over.
pub fn groups<const N: usize, T>(items: &[T]) -> Result<&[[T; N]], Refusal>
    requires { 0 < N }
    ensures { MatchResult result (λ gs. groups_due N items.now ≡ Ok gs.now) (λ e. groups_due N items.now ≡ Err e) }
{
    let (groups, rest) = items.as_chunks();
    if !rest.is_empty() {
        return Err(Refusal::Layout);
    }
    Ok(groups)
}
