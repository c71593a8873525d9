// What a job answers about itself.
ghost use Rattle.std.specs.Prelude.{◌≡◌};
ghost use Rattle.sheet.specs.Jobs.{graph_of};

use super::{Job, Operation};

impl Job {
    // The limit in steps.
    pub fn limit(&self) -> u8
        ensures { result ≡ (graph_of self.now).limit }
    {
        self.limit
    }

    // The widths of the inputs.
    pub fn inputs(&self) -> &[u8]
        ensures { result.now ≡ (graph_of self.now).inputs }
    {
        self.inputs.as_slice()
    }

    // The operations, in the order in which they were read.
    pub fn operations(&self) -> &[Operation]
        ensures { result.now ≡ (graph_of self.now).operations }
    {
        self.operations.as_slice()
    }

    // For each output, in order, the number of its operation.
    pub fn outputs(&self) -> &[u8]
        ensures { result.now ≡ (graph_of self.now).outputs }
    {
        self.outputs.as_slice()
    }
}
