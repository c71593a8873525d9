// The ranges of a command's operands.
ghost use Rattle.std.specs.Prelude.{◌≡◌};
ghost use Rattle.graphs.specs.Commands.{source_range};
ghost use Rattle.graphs.specs.Reading.{in_range, feed_range};

use graphs::{Command, Feed};
use widths::{Adder, Kind, Multiplier};

fn is_source(byte: u8) -> bool
    ensures { result ≡ source_range byte }
{
    matches!(byte, 0..=15 | 64..=127)
}

fn is_feed(feed: Feed) -> bool
    ensures { result ≡ feed_range feed }
{
    is_source(feed.source) && feed.drop <= 63
}

// Whether every operand lies in its range.
pub(super) fn in_range(command: Command) -> bool
    ensures { result ≡ in_range command }
{
    match command {
        Command::Steps(limit) => (1..=64).contains(&limit),
        Command::Input(width) => (1..=40).contains(&width),
        Command::Add(p, a, b) => Adder::is_width(p) && is_feed(a) && is_feed(b),
        Command::Multiply(p, q, a, b) => Multiplier::is_width((p, q)) && is_feed(a) && is_feed(b),
        Command::Output(source) => (64..=127).contains(&source),
        Command::End => true,
    }
}
