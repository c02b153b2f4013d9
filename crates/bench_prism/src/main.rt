//! Indexes a file, judges its shape #1 once, and asks for so many products with it whether they have a
//! prism: `bench_prism FILE PRODUCTS`. Their points are not made. It serves to time the judgement.
#![tactic(auto)]

mod products;

use crate::products::with_prism;
use anyhow::bail;
use sb_fraction::Unit;
use sb_model::{Axis, Turn};
use sb_prism::shape_at;
use sb_shelf::{HostShelf, read_all};
use sb_step::index;
use std::env;

fn main(rt: HostRuntime) -> anyhow::Result<()> {
    let alloc = rt.alloc();
    let Some(path) = env::args(&rt)?.nth(1) else {
        bail!("usage: bench_prism FILE PRODUCTS");
    };
    let Some(number) = env::args(&rt)?.nth(2) else {
        bail!("usage: bench_prism FILE PRODUCTS");
    };
    let products: u32 = number.as_str().parse()?;
    let bytes = read_all(alloc, &mut HostShelf::new(rt), path.as_str())?;
    let file = index(alloc, &bytes)?;
    let kept = shape_at(alloc, &file, 1, Unit::Millimetre)?;
    let Some(turn) = Turn::new(Axis { x: 0, y: 1, z: 0 }, Axis { x: 0, y: 0, z: 1 }) else {
        bail!("no turn");
    };
    let judged = kept.sound()?.judged(alloc, turn)?;
    println!(rt;
        "{} of {products} products have a prism",
        with_prism(&judged, products)
    )?;
    Ok(())
}
