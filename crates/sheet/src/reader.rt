// Reading a sheet from its bytes.
ghost use Rattle.std.specs.Prelude.{◌≡◌, length};
ghost use Rattle.graphs.specs.Graphs.{WellFormed, is_named};
ghost use Rattle.graphs.specs.Law.{ReadingLaw};
ghost use Rattle.graphs.specs.Reading.{in_order, has_room, names_earlier, cause, nothing_read, read, whole_graph};
ghost use Rattle.sheet.specs.Drafts.{sofar, answer, Kept, Takes, ReadsAs};
ghost use Rattle.sheet.specs.Jobs.{graph_of};

use super::Job;
use super::commands::in_range;
use faults::Fault;
use graphs::{Command, Commands, Operation, Source};
use std::alloc::Global;

// What was read so far, before END.
#[derive(Drop)]
struct Draft {
    limit: Option<u8>,
    inputs: Vec<u8>,
    operations: Vec<Operation>,
    outputs: Vec<u8>,
}

impl Draft {
    fn new(alloc: Global) -> Draft
        ensures { sofar result ≡ nothing_read }
    {
        Draft {
            limit: None,
            inputs: Vec::new(alloc),
            operations: Vec::new(alloc),
            outputs: Vec::new(alloc),
        }
    }

    // Whether the command may come now: STEPS, inputs, operations, outputs, END.
    fn in_order(&self, command: Command) -> bool
        ensures { result ≡ in_order (sofar self.now) command }
    {
        let begun = self.limit.is_some();
        match command {
            Command::Steps(_) => !begun,
            Command::Input(_) => begun && self.operations.is_empty() && self.outputs.is_empty(),
            Command::Add(..) | Command::Multiply(..) => begun && self.outputs.is_empty(),
            Command::Output(_) => begun && !self.operations.is_empty(),
            Command::End => begun && !self.operations.is_empty() && !self.outputs.is_empty(),
        }
    }

    fn has_room(&self, command: Command) -> bool
        ensures { result ≡ has_room (sofar self.now) command }
    {
        match command {
            Command::Steps(_) | Command::End => true,
            Command::Input(_) => self.inputs.len() < 16,
            Command::Add(..) | Command::Multiply(..) => self.operations.len() < 64,
            Command::Output(_) => self.outputs.len() < 16,
        }
    }

    fn is_named(&self, source: Source) -> bool
        ensures { result ≡ is_named (length (sofar self.now).inputs) (length (sofar self.now).operations) source }
    {
        match source {
            Source::Input(i) => usize::from(i) < self.inputs.len(),
            Source::Earlier(o) => usize::from(o) < self.operations.len(),
        }
    }

    fn names_earlier(&self, command: Command) -> bool
        ensures { result ≡ names_earlier (sofar self.now) command }
    {
        match command {
            Command::Steps(_) | Command::Input(_) | Command::End => true,
            Command::Add(_, a, b) | Command::Multiply(_, _, a, b) => {
                self.is_named(a.source.into()) && self.is_named(b.source.into())
            }
            Command::Output(s) => self.is_named(Source::Earlier(s.saturating_sub(64))),
        }
    }

    // The first cause that the command meets, in the order of their numbers.
    fn judge(&self, command: Command, at: usize) -> Result<(), Fault>
        ensures { result ≡ answer (cause (sofar self.now) at command) }
    {
        if !self.in_order(command) {
            return Err(Fault::OutOfOrder(at));
        }
        if !self.has_room(command) {
            return Err(Fault::TooMany(at));
        }
        if !in_range(command) {
            return Err(Fault::OutOfRange(at));
        }
        if !self.names_earlier(command) {
            return Err(Fault::NamesNothing(at));
        }
        Ok(())
    }

    fn keep(&mut self, command: Command) -> Result<(), Fault>
        ensures { Kept (sofar self.old) command (sofar self.new) result }
    {
        match command {
            Command::Steps(limit) => self.limit = Some(limit),
            Command::Input(width) => self.inputs.push(width)?,
            Command::Add(p, a, b) => self.operations.push(Operation::Add(p, a.into(), b.into()))?,
            Command::Multiply(p, q, a, b) => self
                .operations
                .push(Operation::Multiply(p, q, a.into(), b.into()))?,
            Command::Output(s) => self.outputs.push(s.saturating_sub(64))?,
            Command::End => {}
        }
        Ok(())
    }

    fn take(&mut self, command: Command, at: usize) -> Result<(), Fault>
        ensures { Takes (sofar self.old) at command (sofar self.new) result }
    {
        self.judge(command, at)?;
        self.keep(command)
    }

    fn finish(self) -> Job
        requires { WellFormed (whole_graph (sofar self)) }
        ensures { graph_of result ≡ whole_graph (sofar self) }
    {
        let Draft {
            limit,
            inputs,
            operations,
            outputs,
        } = self;
        Job {
            limit: limit.unwrap_or(0),
            inputs,
            operations,
            outputs,
        }
    }
}

impl Job {
    // Reads a sheet, or tells the first faulty command.
    #[tactic(auto, using(graphs::proofs::Laws::reading_law))]
    pub fn read(alloc: Global, bytes: &[u8]) -> Result<Job, Fault>
        ensures answer { ReadsAs (read bytes.now) result }
        ensures law { ReadingLaw bytes.now }
    {
        let mut draft = Draft::new(alloc);
        let mut commands = Commands::new(bytes, 0);
        while let Some((at, command)) = commands.next() {
            let command = command?;
            draft.take(command, at)?;
            if let Command::End = command {
                // END is the last command: whatever stands behind it is out of order, whether or not it can be read.
                return match commands.next() {
                    None => Ok(draft.finish()),
                    Some((behind, _)) => Err(Fault::OutOfOrder(behind)),
                };
            }
        }
        Err(Fault::CutShort(bytes.len()))
    }
}
