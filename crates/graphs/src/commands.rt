// The commands of a sheet: their bytes, and what their operands are.
ghost use Rattle.std.specs.Prelude.{◌≡◌};
ghost use Rattle.graphs.specs.Commands.{sheet_format, source_of, operand_of};

use crate::coded::Coded;
use crate::{Command, Feed, Operand, Source};

// The bytes of the format; no other place knows them.
const STEPS: u8 = 0x10;

const INPUT: u8 = 0x11;

const ADD: u8 = 0x12;

const MULTIPLY: u8 = 0x13;

const OUTPUT: u8 = 0x14;

const END: u8 = 0x1F;

impl Coded for Command {
    ghost format = { sheet_format };

    fn operand_count(byte: u8) -> Option<usize> {
        match byte {
            STEPS | INPUT | OUTPUT => Some(1),
            ADD => Some(5),
            MULTIPLY => Some(6),
            END => Some(0),
            _ => None,
        }
    }

    fn decoded(byte: u8, behind: &[u8]) -> Option<Command> {
        match (byte, behind) {
            (STEPS, &[limit, ..]) => Some(Command::Steps(limit)),
            (INPUT, &[width, ..]) => Some(Command::Input(width)),
            (ADD, &[p, a, a_drop, b, b_drop, ..]) => {
                Some(Command::Add(p, feed(a, a_drop), feed(b, b_drop)))
            }
            (MULTIPLY, &[p, q, a, a_drop, b, b_drop, ..]) => {
                Some(Command::Multiply(p, q, feed(a, a_drop), feed(b, b_drop)))
            }
            (OUTPUT, &[source, ..]) => Some(Command::Output(source)),
            (END, _) => Some(Command::End),
            _ => None,
        }
    }
}

fn feed(source: u8, drop: u8) -> Feed
    ensures { result ≡ record { source = source; drop = drop } }
{
    Feed { source, drop }
}

// A source byte names an input up to 15, and else an operation, counted from 64.
impl From<u8> for Source {
    ghost from_gives = { λ byte source. source ≡ source_of byte };

    fn from(byte: u8) -> Source {
        match byte {
            input @ 0..=15 => Source::Input(input),
            operation => Source::Earlier(operation.saturating_sub(64)),
        }
    }
}

impl From<Feed> for Operand {
    ghost from_gives = { λ feed x. x ≡ operand_of feed };

    fn from(feed: Feed) -> Operand {
        Operand {
            source: feed.source.into(),
            drop: feed.drop,
        }
    }
}
