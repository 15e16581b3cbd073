// How far the bytes that a command wants are from those that its host expects.
#![tactic(auto)]

ghost use Rattle.std.specs.Prelude.{◌≡◌};
ghost use Rattle.residual.specs.Residual.{residual_of};

use reply::Residual;
use std::cmp::Ordering;

// The sign of the difference picks the flag, and its size is the residual.
// kept: the difference in i64, and its negation where it is below 0, since document 01 names this form
#[tactic(auto, unfolding(crate::specs::Residual::residual_of))]
pub fn residual_of(wanted: u32, expected: u32) -> Residual
    ensures { result ≡ residual_of wanted expected }
{
    let d = i64::from(wanted) - i64::from(expected);
    match d.cmp(&0) {
        Ordering::Greater => Residual::Over(d as u32),
        Ordering::Less => Residual::Under((-d) as u32),
        Ordering::Equal => Residual::Exact,
    }
}
