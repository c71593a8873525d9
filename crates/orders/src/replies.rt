// What a request is answered, and how it is written.
ghost use Rattle.std.specs.Prelude.{Some};
ghost use Rattle.orders.specs.Steps.{reply_text};

use std::fmt;

// A call that was taken, or the charges: adders with multipliers, and registers.
#[derive(Clone, Copy)]
pub(super) enum Reply {
    Taken,
    Charged(u64, u64),
}

impl fmt::Display for Reply {
    ghost output = { λ r. Some (reply_text r) };

    fn fmt<W: fmt::Write>(&self, f: &mut fmt::Formatter<W>) -> fmt::Result {
        match *self {
            Reply::Taken => write!(f, "ok"),
            Reply::Charged(units, registers) => write!(f, "charge {units} {registers}"),
        }
    }
}
