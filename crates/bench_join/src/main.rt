//! Joins generated cells: `bench_join SLABS CELLS equal|different|alternating`. The cells are parts
//! of one side, in a grid of slabs and heights; their walks are all equal, all different, or differ
//! from height to height. It serves to time the joiner alone.
#![tactic(auto)]

mod cells;

use crate::cells::{Walks, slab};
use anyhow::bail;
use sb_join::Joiner;
use std::env;

fn main(rt: HostRuntime) -> anyhow::Result<()> {
    let alloc = rt.alloc();
    let usage = "usage: bench_join SLABS CELLS equal|different|alternating";
    let (Some(slabs), Some(cells)) = (env::args(&rt)?.nth(1), env::args(&rt)?.nth(2)) else {
        bail!("{usage}");
    };
    let Some(word) = env::args(&rt)?.nth(3) else {
        bail!("{usage}");
    };
    let (Ok(slabs), Ok(cells)) = (slabs.parse::<u16>(), cells.parse::<u16>()) else {
        bail!("{usage}");
    };
    let walks = match word.as_str() {
        "equal" => Walks::Equal,
        "different" => Walks::Different,
        _ => Walks::Alternating,
    };
    let mut joiner = Joiner::new(alloc);
    for u in 0..slabs {
        joiner = joiner.advance(slab(alloc, u, cells, walks)?)?;
    }
    let patches = joiner.finish()?;
    println!(rt;
        "{} cells, {} patches",
        u64::from(slabs) * u64::from(cells),
        patches.len()
    )?;
    Ok(())
}
