// Answering an order: its sheet is read, and its requests are made to a board one after the other.
ghost use Rattle.std.specs.Prelude.{◌≡◌, ◌+◌, ◌≤◌, ◌++◌, length, string_bytes, IfOk, MatchResult};
ghost use Rattle.faults.specs.declared.Fault.TheVariants.{OutOfMemory};
ghost use Rattle.faults.specs.Faults.{line_of};
ghost use Rattle.graphs.specs.Reading.{read};
ghost use Rattle.orders.specs.Orders.{line, opened, order_text};
ghost use Rattle.orders.specs.Steps.{told, answer_on, answers_on, Follows, Writes};

use super::replies::Reply;
use super::requests::Request;
use board::Board;
use faults::Fault;
use graphs::Commands;
use prices::{Formula, PriceList};
use sheet::Job;
use std::alloc::Global;

// Makes a request to the board.
fn obey<L: PriceList>(board: &mut Board<L>, request: Request) -> Result<Reply, Fault>
    ensures answer { told result ≡ answer_on L.prices board.old request }
    ensures board { Follows L.prices request board.old board.new }
{
    match request {
        Request::Hire(kind, number, w, v) => board.hire(kind, number, w, v)?,
        Request::Dismiss(kind, number) => board.dismiss(kind, number)?,
        Request::Place(operation, unit, start, register) => {
            board.place(operation, unit, u16::from(start), register)?
        }
        Request::Lift(operation) => board.lift(operation)?,
        Request::Charge => {
            let (units, registers) = board.charge();
            return Ok(Reply::Charged(units, registers));
        }
    }
    Ok(Reply::Taken)
}

// Makes a request to the board and writes its line.
fn answer_request<L: PriceList>(
    board: &mut Board<L>,
    request: Request,
    out: &mut String,
) -> Result<(), Fault>
    ensures text { MatchResult result (λ _. string_bytes out.new ≡ string_bytes out.old ++ line (answer_on L.prices board.old request)) (λ f. f ≡ OutOfMemory) }
    ensures board { Follows L.prices request board.old board.new }
{
    match obey(board, request) {
        Ok(reply) => out.writeln(reply)?,
        Err(fault) => out.writeln(fault)?,
    }
    Ok(())
}

// Answers the requests that are left; the first that cannot be read ends them.
fn answer_requests<L: PriceList>(
    board: &mut Board<L>,
    requests: Commands<'_, Request>,
    out: &mut String,
) -> Result<(), Fault>
    ensures { Writes (answers_on L.prices board.old requests.entry) (string_bytes out.old) (string_bytes out.new) result }
{
    for (_, request) in requests {
        answer_request(board, request?, out)?;
    }
    Ok(())
}

// The sheet of an order; its length stands before it in two bytes, high first.
fn sheet_in(bytes: &[u8]) -> Result<&[u8], Fault>
    ensures inside { IfOk result (λ s. length s.now + 2 ≤ length bytes.now) }
    ensures text { MatchResult result (λ s. order_text bytes.now ≡ opened (read s.now) bytes.now (length s.now + 2)) (λ f. order_text bytes.now ≡ line (line_of f)) }
{
    let [high, low, rest @ ..] = bytes else {
        return Err(Fault::CutShort(0));
    };
    let length = u16::from_be_bytes([*high, *low]);
    rest.get(..usize::from(length)).ok_or(Fault::CutShort(0))
}

// Reads the sheet of an order and answers the requests behind it, on a board with both rates 1.
pub(super) fn answer_order(alloc: Global, bytes: &[u8], out: &mut String) -> Result<(), Fault>
    ensures { Writes (order_text bytes.now) (string_bytes out.old) (string_bytes out.new) result }
{
    let sheet = sheet_in(bytes)?;
    let job = Job::read(alloc, sheet)?;
    let mut board = Board::new(job, Formula::new(1, 1)?);
    answer_requests(&mut board, Commands::new(bytes, sheet.len() + 2), out)
}
