//! Counts the tokens of a file: `bench_tokens FILE`. It serves to time reading and tokens alone.
#![tactic(auto)]

mod counting;

use crate::counting::count_tokens;
use anyhow::bail;
use sb_shelf::{HostShelf, read_all};
use std::env;

fn main(rt: HostRuntime) -> anyhow::Result<()> {
    let alloc = rt.alloc();
    let Some(path) = env::args(&rt)?.nth(1) else {
        bail!("usage: bench_tokens FILE");
    };
    let bytes = read_all(alloc, &mut HostShelf::new(rt), path.as_str())?;
    let count = count_tokens(&bytes);
    match count.fault {
        None => println!(rt; "{} tokens", count.tokens)?,
        Some(bad) => println!(rt; "{} tokens, and none at byte {}", count.tokens, bad.0)?,
    }
    Ok(())
}
