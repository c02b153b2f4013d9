//! Makes loops of a shape and then their plan: `bench_loops SHAPE SIZE`, where the shape is
//! `together`,
//! `apart`, `spiral` or `way`. It serves to time the plan.
#![tactic(auto)]

mod shapes;

use crate::shapes::{loops_of, shape_of};
use anyhow::bail;
use sb_loops::{LoopError, plan_of};
use std::env;

fn main(rt: HostRuntime) -> anyhow::Result<()> {
    let alloc = rt.alloc();
    let Some(name) = env::args(&rt)?.nth(1) else {
        bail!("usage: bench_loops SHAPE SIZE");
    };
    let Some(size) = env::args(&rt)?.nth(2) else {
        bail!("usage: bench_loops SHAPE SIZE");
    };
    let Some(shape) = shape_of(name.as_str()) else {
        bail!("the shapes are together, apart, spiral and way");
    };
    let Ok(size) = size.parse::<u32>() else {
        bail!("the size is a number");
    };
    let loops = loops_of(alloc, shape, size)?;
    match plan_of(alloc, loops) {
        Ok(plan) => println!(rt; "a plan of {} loops", plan.len())?,
        Err(LoopError::Flat) => println!(rt; "flat")?,
        Err(LoopError::Knot) => println!(rt; "knotted")?,
        Err(LoopError::NoMemory) => bail!("no memory"),
    }
    Ok(())
}
