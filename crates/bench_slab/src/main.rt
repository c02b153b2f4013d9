//! Tells the plan edges of a generated model and the slabs of a direction:
//! `bench_slab apart|crossed|stairs x|y`. It serves to time `sb_frame` and `sb_slab` alone.
#![tactic(auto)]

mod models;
mod told;

use crate::models::{Shape, generated};
use crate::told::count_slabs;
use anyhow::bail;
use sb_frame::PlanEdges;
use std::env;
use tests_frame::{along_x, along_y};

fn main(rt: HostRuntime) -> anyhow::Result<()> {
    let alloc = rt.alloc();
    let usage = "usage: bench_slab apart|crossed|stairs x|y";
    let (Some(shape), Some(along)) = (env::args(&rt)?.nth(1), env::args(&rt)?.nth(2)) else {
        bail!("{usage}");
    };
    let shape = match shape.as_str() {
        "apart" => Shape::Apart,
        "crossed" => Shape::Crossed,
        _ => Shape::Stairs,
    };
    let d = match along.as_str() {
        "x" => along_x(),
        _ => along_y(),
    };
    let Some(model) = generated(alloc, shape)? else {
        bail!("bad numbers");
    };
    let Ok(edges) = PlanEdges::new(alloc, &model) else {
        bail!("too many edges or crossings");
    };
    let told = count_slabs(alloc, &edges, d)?;
    println!(rt;
        "{} edges, {} crossings, {} slabs, {} places",
        edges.len(),
        edges.crossings().len(),
        told.slabs,
        told.places
    )?;
    Ok(())
}
