//! Measures how the work of the libraries grows. `tools/growth` runs it under a counter of instructions, at three counts of each
//! workload, and prints by which power of the count each step grows.
//!
//! Without words it does a little of each workload, and prints what comes of it. With the words WORKLOAD COUNT STEP it does the
//! steps of a workload up to this one, and prints nothing. With the word `bounds` it prints how many bytes are written of types
//! that are mentioned far away, beside the bound by their weight. Other words are refused.
#![tactic(auto)]

mod bounds;
mod comparing;
mod deep;
mod graph;
mod nodes;
mod reading;
mod types;
mod workloads;

use anyhow::{Result, bail};
use std::env::{self, Env};
use workloads::{Step, WORKLOADS, take};

/// The words after the program's name.
fn words<R: Env + AllocGlobal>(rt: &R) -> Result<Vec<String>> {
    let mut words = Vec::new(rt.alloc());
    for word in env::args(rt)?.skip(1) {
        words.push(word)?;
    }
    Ok(words)
}

/// Does a little of each workload, and prints what comes of it.
fn show(rt: &HostRuntime) -> Result<()> {
    for (words, few) in WORKLOADS {
        for word in words.split_ascii_whitespace() {
            let counted = take(rt.alloc(), word, *few, Step::Measure)?;
            println!(rt; "{word} {few}: {counted}")?;
        }
    }
    bounds::show(rt, &[(3, 2)])
}

/// Does the steps of a workload up to one.
fn measure(rt: &HostRuntime, word: &str, count: &str, step: &str) -> Result<()> {
    let (Some(step), Ok(count)) = (Step::of_word(step), count.parse::<u64>()) else {
        bail!("the words are to be WORKLOAD COUNT STEP");
    };
    let _counted = take(rt.alloc(), word, count, step)?;
    Ok(())
}

fn main(rt: HostRuntime) -> Result<()> {
    let words = words(&rt)?;
    match words.as_slice() {
        [] => show(&rt),
        [word] if word.as_str() == "bounds" => bounds::show(&rt, bounds::SIZES),
        [word, count, step] => measure(&rt, word.as_str(), count.as_str(), step.as_str()),
        _ => bail!("the words are to be none, `bounds`, or WORKLOAD COUNT STEP"),
    }
}
