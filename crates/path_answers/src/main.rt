//! Answers calls of `Path::interpolate`: each line of the input is a call, and the same line of the output is
//! its result.
#![tactic(auto)]

mod call;

use anyhow::Context;

fn main(rt: HostRuntime) -> anyhow::Result<()> {
    for line in rt.lines(rt.alloc()) {
        let line = line?;
        let call = call::parse(line.as_str()).context("too few fields")?;
        println!(rt; "{}", call.answer(rt.alloc())?)?;
    }
    Ok(())
}
