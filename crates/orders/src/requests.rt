// The requests of an order: their bytes and operands.
ghost use Rattle.orders.specs.Orders.{order_format};

use graphs::Coded;

// The bytes of the format; no other place knows them.
const HIRE: u8 = 0x20;

const DISMISS: u8 = 0x21;

const PLACE: u8 = 0x22;

const LIFT: u8 = 0x23;

const CHARGE: u8 = 0x25;

// A call with its operands, or the question what the board costs.
#[derive(Clone, Copy)]
pub(super) enum Request {
    Hire(u8, u8, u8, u8),
    Dismiss(u8, u8),
    Place(u8, u8, u8, u8),
    Lift(u8),
    Charge,
}

impl Coded for Request {
    ghost format = { order_format };

    fn operand_count(byte: u8) -> Option<usize> {
        match byte {
            HIRE | PLACE => Some(4),
            DISMISS => Some(2),
            LIFT => Some(1),
            CHARGE => Some(0),
            _ => None,
        }
    }

    fn decoded(byte: u8, behind: &[u8]) -> Option<Request> {
        match (byte, behind) {
            (HIRE, &[kind, number, w, v, ..]) => Some(Request::Hire(kind, number, w, v)),
            (DISMISS, &[kind, number, ..]) => Some(Request::Dismiss(kind, number)),
            (PLACE, &[operation, unit, start, register, ..]) => {
                Some(Request::Place(operation, unit, start, register))
            }
            (LIFT, &[operation, ..]) => Some(Request::Lift(operation)),
            (CHARGE, _) => Some(Request::Charge),
            _ => None,
        }
    }
}
