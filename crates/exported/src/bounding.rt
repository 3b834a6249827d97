// What a bound call returns.
ghost use Rattle.std.specs.Prelude.{◌≡◌};

use crate::Cause;
use model::Refusal;

// The figure that neither the rounds nor the pairs of any search of the sheet exceed, or the cause beside 0.
#[repr(C)]
#[derive(Clone, Copy)]
pub struct Bound {
    pub cause: Cause,
    pub most: usize,
}

impl From<Result<usize, Refusal>> for Bound {
    ghost use Rattle.exported.specs.ExportedBound.{bound_of};

    ghost from_gives = { λ reply bound. bound ≡ bound_of reply };

    fn from(reply: Result<usize, Refusal>) -> Bound {
        match reply {
            Ok(most) => Bound {
                cause: Cause::NONE,
                most,
            },
            Err(refusal) => Bound {
                cause: refusal.into(),
                most: 0,
            },
        }
    }
}
