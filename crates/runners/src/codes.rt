// A transfer as the number that is lent to C: its progress, or one that no progress is.
use crate::Transfer;

// The number of an idle transition.
pub const IDLE: u16 = 65535;

impl From<Transfer> for u16 {
    ghost use Rattle.std.specs.Prelude.{◌≡◌};
    ghost use Rattle.runners.specs.Columns.{code_of};

    ghost from_gives = { λ transfer code. code ≡ code_of transfer };

    fn from(transfer: Transfer) -> u16 {
        match transfer {
            Transfer::Idle => IDLE,
            Transfer::Carrying(c) => c,
        }
    }
}

impl From<u16> for Transfer {
    ghost use Rattle.std.specs.Prelude.{◌≡◌};
    ghost use Rattle.runners.specs.Columns.{transfer_of};

    ghost from_gives = { λ code transfer. transfer ≡ transfer_of code };

    fn from(code: u16) -> Transfer {
        if code == IDLE {
            return Transfer::Idle;
        }
        Transfer::Carrying(code)
    }
}
