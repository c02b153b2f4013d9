//! Indexes a file, and reads each of its Cartesian points and placements by its view:
//! `bench_views FILE`. It serves to time the views.
#![tactic(auto)]

mod reading;

use crate::reading::read;
use anyhow::bail;
use sb_shelf::{HostShelf, read_all};
use sb_step::index;
use std::env;

fn main(rt: HostRuntime) -> anyhow::Result<()> {
    let alloc = rt.alloc();
    let Some(path) = env::args(&rt)?.nth(1) else {
        bail!("usage: bench_views FILE");
    };
    let bytes = read_all(alloc, &mut HostShelf::new(rt), path.as_str())?;
    let file = index(alloc, &bytes)?;
    let seen = read(alloc, &file)?;
    println!(rt; "{} points and {} placements", seen.points, seen.placements)?;
    Ok(())
}
