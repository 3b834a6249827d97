// The pair of a plan beside the list.
ghost use Rattle.std.specs.Prelude.{◌≡◌, ◌≤◌, ◌*◌, length};
ghost use Rattle.model.specs.Limits.{numbers_a_pair};
ghost use Rattle.checker.specs.Judging.{listed_in, InArea, beside_reply};

use model::limits::NUMBERS_A_PAIR;
use model::{Checked, Listed, PlanPair, Refusal};

// Whether the pair is one of the first in the area.
fn is_listed(pairs: &[i64], count: usize, last: u32, worst: i64) -> bool
    requires { numbers_a_pair * count ≤ length pairs.now }
    ensures { result ≡ listed_in pairs.now last worst count }
{
    let arrival = i64::from(last);
    let mut listed = false;
    for k in 0..count {
        let other = pairs[NUMBERS_A_PAIR * k];
        let late = pairs[NUMBERS_A_PAIR * k + 1];
        listed = ((other == arrival) & (late == worst)) | listed;
    }
    listed
}

// What is told of the pair and the list's reply.
pub fn beside(
    reply: Result<Listed, Refusal>,
    pair: PlanPair,
    pairs: &[i64],
) -> Result<Checked, Refusal>
    requires { InArea reply pairs.now }
    ensures { result ≡ beside_reply reply pair.last pair.worst pairs.now }
{
    let list = reply?;
    Ok(Checked {
        last: pair.last,
        worst: pair.worst,
        listed: is_listed(pairs, list.pairs, pair.last, pair.worst),
        pairs: list.pairs,
        rounds: list.rounds,
    })
}
