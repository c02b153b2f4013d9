//! Indexes a file and finds its first defect: `bench_profile FILE`. It serves to time the pass.
#![tactic(auto)]

use anyhow::bail;
use sb_profile::{Code, first_defect};
use sb_shelf::{HostShelf, read_all};
use sb_step::index;
use std::env;

fn main(rt: HostRuntime) -> anyhow::Result<()> {
    let alloc = rt.alloc();
    let Some(path) = env::args(&rt)?.nth(1) else {
        bail!("usage: bench_profile FILE");
    };
    let bytes = read_all(alloc, &mut HostShelf::new(rt), path.as_str())?;
    let file = index(alloc, &bytes)?;
    match first_defect(alloc, &file)? {
        Some(defect) => println!(rt; "{} #{}", name(defect.code), defect.number)?,
        None => println!(rt; "no defect")?,
    }
    Ok(())
}

fn name(code: Code) -> &'static str {
    match code {
        Code::Schema => "Schema",
        Code::Units => "Units",
        Code::Building => "Building",
        Code::Class => "Class",
        Code::Fields => "Fields",
        Code::Missing => "Missing",
        Code::Chain => "Chain",
        Code::Turned => "Turned",
        Code::Shape => "Shape",
        Code::Range => "Range",
        Code::OffGrid => "OffGrid",
        Code::Loops => "Loops",
        Code::Layers => "Layers",
    }
}
