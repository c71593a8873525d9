// Walks through the job sheets of two filters: what each sheet says, command by command, and the value of each of its
// operations and outputs for some frames of samples. At the end it shows how damaged copies of a sheet are refused.
#![tactic(auto)]

mod costs;
mod damage;
mod show;

use costs::show_costs;
use damage::DAMAGES;
use sheet::Job;
use show::{Numbers, Shown};
use std::fs;
use std::rt::Files;

fn main(rt: HostRuntime) -> anyhow::Result<()> {
    walk(&rt, "biquad.sheet", "biquad.samples")?;
    walk(&rt, "transform.sheet", "transform.samples")?;
    show_damages(&rt, "biquad.sheet")
}

// A sheet and the frames of samples that stand in a file, one to a line.
fn walk(rt: &(impl Files + Print + AllocGlobal), sheet: &str, samples: &str) -> anyhow::Result<()> {
    let bytes = fs::read(rt, sheet)?;
    println!(rt; "{sheet}: {} bytes", bytes.len())?;
    let job = Job::read(rt.alloc(), &bytes)?;
    show_job(rt, &job)?;
    show_costs(rt, &job)?;
    let text = fs::read_to_string(rt, samples)?;
    for (number, line) in text.lines().enumerate() {
        show_frame(rt, &job, number, line)?;
    }
    Ok(())
}

fn show_job(rt: &impl Print, job: &Job) -> anyhow::Result<()> {
    println!(rt; "  STEPS {}", job.limit())?;
    for (i, width) in job.inputs().iter().enumerate() {
        println!(rt; "  INPUT {i}: {width} bits")?;
    }
    for (o, operation) in job.operations().iter().enumerate() {
        println!(rt; "  operation {o}: {}", Shown(operation))?;
    }
    for (k, o) in job.outputs().iter().enumerate() {
        println!(rt; "  OUTPUT {k}: operation {o}")?;
    }
    println!(rt; "  END")?;
    Ok(())
}

fn show_frame(
    rt: &(impl Print + AllocGlobal),
    job: &Job,
    number: usize,
    line: &str,
) -> anyhow::Result<()> {
    let samples: Vec<i64> = line
        .split_whitespace()
        .map(|word| word.parse::<i64>().map_err(anyhow::Error::from))
        .try_collect(rt.alloc())?;
    println!(rt; "  frame {number}: samples{}", Numbers(&samples))?;
    show_values(rt, job, &samples)?;
    show_outputs(rt, job, &samples)
}

// The values stand in buffers of the most that a job can have, so showing them wants no memory.
fn show_values(rt: &impl Print, job: &Job, samples: &[i64]) -> anyhow::Result<()> {
    let mut values = [0; 64];
    let count = job.operation_values(samples, &mut values)?;
    for (o, value) in values.iter().take(count).enumerate() {
        println!(rt; "    operation {o} = {value}")?;
    }
    Ok(())
}

fn show_outputs(rt: &impl Print, job: &Job, samples: &[i64]) -> anyhow::Result<()> {
    let mut outputs = [0; 16];
    let count = job.output_values(samples, &mut outputs)?;
    println!(rt;
        "    outputs{}",
        Numbers(outputs.get(..count).unwrap_or(&outputs))
    )?;
    Ok(())
}

fn show_damages(rt: &(impl Files + Print + AllocGlobal), sheet: &str) -> anyhow::Result<()> {
    let bytes = fs::read(rt, sheet)?;
    println!(rt; "damaged copies of {sheet}")?;
    for damage in DAMAGES {
        let copy = damage.applied(rt.alloc(), &bytes)?;
        match Job::read(rt.alloc(), &copy) {
            Ok(_) => println!(rt; "  {damage}: read")?,
            Err(fault) => println!(rt; "  {damage}: {fault}")?,
        }
    }
    Ok(())
}
