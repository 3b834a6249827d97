// What the exported calls return: structs laid out as in C, in document 01's numbers. Here a cause, a listing and a choice, in `reading` a text as read, and in
// `bounding` a figure; `checked` and `watched` have what those calls return, and `capi` the calls.
#![tactic(auto)]

pub mod bounding;
pub mod reading;

ghost use Rattle.std.specs.Prelude.{◌≡◌};

use model::{Listed, PlanPair, Refusal};

// Why an input is refused: document 01's number and returned value. 0 and 0 say that it is not.
#[repr(C)]
#[derive(Clone, Copy)]
pub struct Cause {
    pub number: usize,
    pub returned: usize,
}

// What listing the pairs of a sheet gives: how many pairs are listed and how many rounds were made, or the cause beside 0 and 0.
#[repr(C)]
#[derive(Clone, Copy)]
pub struct Listing {
    pub cause: Cause,
    pub pairs: usize,
    pub rounds: usize,
}

// What choosing a plan gives: the pair that was chosen, last arrival and worst weighted lateness, or the cause beside 0 and 0.
#[repr(C)]
#[derive(Clone, Copy)]
pub struct Choice {
    pub cause: Cause,
    pub last: u32,
    pub worst: i64,
}

impl Cause {
    // That nothing is refused.
    pub const NONE: Cause = Cause {
        number: 0,
        returned: 0,
    };
}

impl From<Refusal> for Cause {
    ghost use Rattle.exported.specs.Exported.{cause_of};

    ghost from_gives = { λ refusal cause. cause ≡ cause_of refusal };

    fn from(refusal: Refusal) -> Cause {
        Cause {
            number: refusal.number(),
            returned: refusal.returned(),
        }
    }
}

impl From<Result<Listed, Refusal>> for Listing {
    ghost use Rattle.exported.specs.ExportedPlanning.{listing_of};

    ghost from_gives = { λ reply listing. listing ≡ listing_of reply };

    fn from(reply: Result<Listed, Refusal>) -> Listing {
        match reply {
            Ok(listed) => Listing {
                cause: Cause::NONE,
                pairs: listed.pairs,
                rounds: listed.rounds,
            },
            Err(refusal) => Listing {
                cause: refusal.into(),
                pairs: 0,
                rounds: 0,
            },
        }
    }
}

impl From<Result<PlanPair, Refusal>> for Choice {
    ghost use Rattle.exported.specs.ExportedPlanning.{choice_of};

    ghost from_gives = { λ reply choice. choice ≡ choice_of reply };

    fn from(reply: Result<PlanPair, Refusal>) -> Choice {
        match reply {
            Ok(pair) => Choice {
                cause: Cause::NONE,
                last: pair.last,
                worst: pair.worst,
            },
            Err(refusal) => Choice {
                cause: refusal.into(),
                last: 0,
                worst: 0,
            },
        }
    }
}
