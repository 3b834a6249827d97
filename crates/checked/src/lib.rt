// What checking a plan returns.
#![tactic(auto)]

ghost use Rattle.std.specs.Prelude.{◌≡◌};

use exported::Cause;
use model::{Checked, Refusal};

// What checking a plan gives: its pair, last arrival and worst weighted lateness, whether that pair is listed, how many pairs are listed and how many rounds
// were made; or the cause beside noughts.
#[repr(C)]
#[derive(Clone, Copy)]
pub struct Check {
    pub cause: Cause,
    pub last: u32,
    pub worst: i64,
    pub listed: bool,
    pub pairs: usize,
    pub rounds: usize,
}

impl From<Result<Checked, Refusal>> for Check {
    ghost use Rattle.checked.specs.ExportedChecking.{check_of};

    ghost from_gives = { λ reply check. check ≡ check_of reply };

    fn from(reply: Result<Checked, Refusal>) -> Check {
        match reply {
            Ok(checked) => Check {
                cause: Cause::NONE,
                last: checked.last,
                worst: checked.worst,
                listed: checked.listed,
                pairs: checked.pairs,
                rounds: checked.rounds,
            },
            Err(refusal) => Check {
                cause: refusal.into(),
                last: 0,
                worst: 0,
                listed: false,
                pairs: 0,
                rounds: 0,
            },
        }
    }
}
