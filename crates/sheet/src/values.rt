// The values of a job's graph for given samples.
ghost use Rattle.std.specs.Prelude.{◌≡◌, ℕ, ◌^◌, ◌<◌, ◌≤◌, true, map, length, ℤ, ◌+ℤ◌, ◌*ℤ◌, slice_index, cond, nat_le, Ok, Err, IsOk, IfOk, IfErr, ◌↔◌};
ghost use Rattle.faults.specs.declared.Fault.TheVariants.{BufferTooShort, SampleCount};
ghost use Rattle.std.specs.Int.Signed.{mag};
ghost use Rattle.words.specs.Cut.{cut_to};
ghost use Rattle.graphs.specs.Graphs.{count, is_named, good_operand, good_operation};
ghost use Rattle.sheet.specs.Jobs.{graph_of};
ghost use Rattle.graphs.specs.Values.{source_value, operand_value, operation_value, value_in, room_answer, overwritten, written, operation_values, output_values, ValuesLaw};

use super::{Job, Operand, Operation, Source};
use faults::Fault;
use words::cut;

// A job with a sample for each of its inputs.
// The values of operations are written behind one another, so each method is lent those of the operations before.
#[derive(Clone, Copy)]
struct Sampled<'a> {
    job: &'a Job,
    samples: &'a [i64],
    ghost one_each: { length samples.now ≡ length (graph_of job.now).inputs },
}

impl<'a> Sampled<'a> {
    ghost use Rattle.sheet.specs.Samples.{sampled_graph, input_count};

    fn new(job: &'a Job, samples: &'a [i64]) -> Result<Self, Fault>
        ensures taken { IsOk result ↔ (length samples.now ≡ length (graph_of job.now).inputs) }
        ensures job { IfOk result (λ s. s.job.now ≡ job.now) }
        ensures samples { IfOk result (λ s. s.samples.now ≡ samples.now) }
        ensures refused { IfErr result (λ f. f ≡ SampleCount (length (graph_of job.now).inputs)) }
    {
        let wanted = job.inputs.len();
        if samples.len() != wanted {
            return Err(Fault::SampleCount(wanted));
        }
        Ok(Sampled { job, samples })
    }

    fn source_value(&self, values: &[i64], source: Source) -> i64
        requires { is_named (input_count self.now) (length values.now) source ≡ true }
        ensures { result ≡ source_value (sampled_graph self.now).inputs self.now.samples.now (value_in values.now) source }
    {
        match source {
            Source::Input(i) => {
                let i = usize::from(i);
                cut(self.samples[i], 0, self.job.inputs[i])
            }
            Source::Earlier(o) => values[usize::from(o)],
        }
    }

    // What a port of so many bits reads.
    fn operand_value(&self, values: &[i64], operand: Operand, port: u8) -> i64
        requires { good_operand (input_count self.now) (length values.now) operand ≡ true }
        ensures { result ≡ operand_value (sampled_graph self.now).inputs self.now.samples.now (value_in values.now) operand port }
    {
        cut(
            self.source_value(values, operand.source),
            operand.drop,
            port,
        )
    }

    fn operation_value(&self, values: &[i64], operation: Operation) -> i64
        requires { good_operation (input_count self.now) (length values.now) operation ≡ true }
        ensures { result ≡ operation_value (sampled_graph self.now).inputs self.now.samples.now (value_in values.now) operation }
    {
        match operation {
            Operation::Add(p, a, b) => {
                let x = self.operand_value(values, a, p);
                let y = self.operand_value(values, b, p);
                added(x, y, p)
            }
            Operation::Multiply(p, q, a, b) => {
                let x = self.operand_value(values, a, p);
                let y = self.operand_value(values, b, q);
                multiplied(x, y)
            }
        }
    }

    // Writes the value of each operation, in their order.
    fn fill(&self, values: &mut [i64])
        requires { count (sampled_graph self.now) ≤ length values.old }
        ensures { values.new ≡ overwritten (operation_values (sampled_graph self.now) self.now.samples.now) values.old }
    {
        // By place: each value is made from those before it in the same buffer.
        for (o, operation) in self.job.operations.iter().enumerate() {
            values[o] = self.operation_value(values, *operation);
        }
    }

    // Writes the value of each output, in their order.
    fn fill_outputs(&self, out: &mut [i64])
        requires { length (sampled_graph self.now).outputs ≤ length out.old }
        ensures { out.new ≡ overwritten (output_values (sampled_graph self.now) self.now.samples.now) out.old }
    {
        let mut values = [0i64; 64];
        self.fill(&mut values);
        pick(&self.job.outputs, &values, out);
    }
}

fn added(a: i64, b: i64, p: u8) -> i64
    requires a_small { mag a < 2 ^ 39 }
    requires b_small { mag b < 2 ^ 39 }
    ensures { result ≡ cut_to (a +ℤ b) 0 p }
{
    cut(a + b, 0, p)
}

fn multiplied(a: i64, b: i64) -> i64
    requires a_small { mag a < 2 ^ 39 }
    requires b_small { mag b < 2 ^ 23 }
    ensures { result ≡ a *ℤ b }
{
    a * b
}

// Writes the values that stand at the named places, in their order.
fn pick(named: &[u8], values: &[i64], out: &mut [i64])
    requires there { (k : ℕ) → k < length named.now → slice_index named.now k < length values.now }
    requires room { length named.now ≤ length out.old }
    ensures { out.new ≡ overwritten (map (value_in values.now) named.now) out.old }
{
    // By place: after a `zip` of `iter_mut` no proof knows what was written.
    for (k, o) in named.iter().enumerate() {
        out[k] = values[usize::from(*o)];
    }
}

// How much a call writes that needs so much room.
fn needed_room(needed: usize, out: &[i64]) -> Result<usize, Fault>
    ensures { result ≡ cond (nat_le needed (length out.now)) (Ok needed) (Err (BufferTooShort needed)) }
{
    if out.len() < needed {
        return Err(Fault::BufferTooShort(needed));
    }
    Ok(needed)
}

impl Job {
    // Writes the value of each operation for these samples, one for each input, and answers how many there are.
    pub fn operation_values(&self, samples: &[i64], out: &mut [i64]) -> Result<usize, Fault>
        ensures answer { result ≡ room_answer (length (graph_of self.now).inputs) (length samples.now) (count (graph_of self.now)) (length out.old) }
        ensures after { out.new ≡ written result (operation_values (graph_of self.now) samples.now) out.old }
    {
        let sampled = Sampled::new(self, samples)?;
        let count = needed_room(self.operations.len(), out)?;
        sampled.fill(out);
        Ok(count)
    }

    // Writes the value of each output for these samples, one for each input, and answers how many there are.
    pub fn output_values(&self, samples: &[i64], out: &mut [i64]) -> Result<usize, Fault>
        ensures answer { result ≡ room_answer (length (graph_of self.now).inputs) (length samples.now) (length (graph_of self.now).outputs) (length out.old) }
        ensures after { out.new ≡ written result (output_values (graph_of self.now) samples.now) out.old }
    {
        let sampled = Sampled::new(self, samples)?;
        let count = needed_room(self.outputs.len(), out)?;
        sampled.fill_outputs(out);
        Ok(count)
    }

    // For these samples each operation's value follows from its operands', and no other values do; proved.
    #[tactic(auto, using(graphs::proofs::Valued::values_law))]
    pub fn values_follow(&self, samples: &[i64])
        ensures { ValuesLaw (graph_of self.now) samples.now }
    {}
}
