// Commands that stand in a string of bytes, one after the other.
ghost use Rattle.std.specs.Prelude.{◌≡◌, ◌-◌, length};
ghost use Rattle.std.specs.Iterator.{at_most};
ghost use Rattle.graphs.specs.Scripts.{Format, command_in, AnswersFirst, Unread, Reads};

use faults::Fault;
use std::marker::{Model, PhantomData};

// A command that is written as a byte, which says what command it is, and its operands behind it.
pub trait Coded: Sized {
    ghost format: { Format Self };

    // How many operands the command of a byte has, if there is such a command.
    fn operand_count(byte: u8) -> Option<usize>
        ensures { result ≡ format.operands byte };

    // The command of a byte, with its operands at the front of `behind`; none if there is no such command or an operand is missing.
    fn decoded(byte: u8, behind: &[u8]) -> Option<Self>
        ensures { result ≡ command_in format byte behind.now };
}

// The command of a byte at a position, and how many operands stand behind it.
// Inlined, as is `next`: a reader then takes a command as it is decoded, and not through memory.
#[inline(always)]
fn first_command<C: Coded>(at: usize, byte: u8, behind: &[u8]) -> Result<(C, usize), Fault>
    ensures { AnswersFirst C.format at byte behind.now result }
{
    let count = C::operand_count(byte).ok_or(Fault::UnknownCommand(at))?;
    let command = C::decoded(byte, behind).ok_or(Fault::CutShort(at))?;
    Ok((command, count))
}

// The commands of a string of bytes, each with its position; one that cannot be read is the last.
#[derive(Drop)]
pub struct Commands<'a, C> {
    bytes: &'a [u8],
    at: usize,
    of: PhantomData<C>,
}

impl<'a, C> Model for Commands<'a, C> {
    ghost Value = { Unread };

    ghost view = { λ s. record { bytes = s.bytes.now; at = s.at } };
}

impl<'a, C: Coded> Commands<'a, C> {
    // The commands from a position on.
    pub fn new(bytes: &'a [u8], from: usize) -> Self
        ensures bytes { result.bytes ≡ bytes.now }
        ensures place { result.at ≡ from }
    {
        Commands {
            bytes,
            at: from,
            of: PhantomData,
        }
    }
}

impl<'a, C: Coded> Iterator for Commands<'a, C> {
    type Item = (usize, Result<C, Fault>);

    ghost next_gives = { Reads C.format };

    ghost remaining = { λ s. at_most (length s.bytes - s.at) };

    #[inline(always)]
    fn next(&mut self) -> Option<(usize, Result<C, Fault>)> {
        let at = self.at;
        let (byte, behind) = self.bytes.get(at..)?.split_first()?;
        match first_command(at, *byte, behind) {
            Ok((command, count)) => {
                self.at = at + 1 + count;
                Some((at, Ok(command)))
            }
            Err(fault) => {
                self.at = self.bytes.len();
                Some((at, Err(fault)))
            }
        }
    }
}
