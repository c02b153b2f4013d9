//! Indexes a file, and looks at each of its references: `bench_index FILE [look]`. It serves to
//! time the index and its look-ups alone.
#![tactic(auto)]

mod looking;

use crate::looking::look;
use anyhow::bail;
use sb_shelf::{HostShelf, read_all};
use sb_step::index;
use std::env;

fn main(rt: HostRuntime) -> anyhow::Result<()> {
    let alloc = rt.alloc();
    let Some(path) = env::args(&rt)?.nth(1) else {
        bail!("usage: bench_index FILE [look]");
    };
    let looks = env::args(&rt)?.nth(2).is_some();
    let bytes = read_all(alloc, &mut HostShelf::new(rt), path.as_str())?;
    let file = index(alloc, &bytes)?;
    println!(rt;
        "{} instances, the greatest #{}",
        file.numbers().len(),
        file.greatest()
    )?;
    if looks {
        let looked = look(alloc, &bytes, &file)?;
        println!(rt; "{} names, of {} instances", looked.names, looked.found)?;
    }
    Ok(())
}
