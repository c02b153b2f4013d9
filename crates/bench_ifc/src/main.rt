//! Adds generated boundaries to a file: `bench_ifc FILE whole|steep|short|long COUNT list|text|print`. With
//! `list` it only makes the list, with `print` it prints the text. It serves to time the IFC text alone.
#![tactic(auto)]

mod kind;
mod lists;
mod models;
mod texts;

use crate::kind::kind_of;
use crate::lists::list_of;
use crate::models::model;
use crate::texts::{Pass, pass_of, written};
use anyhow::bail;
use sb_shelf::{HostShelf, read_all};
use std::env;

fn main(rt: HostRuntime) -> anyhow::Result<()> {
    let alloc = rt.alloc();
    let usage = "usage: bench_ifc FILE whole|steep|short|long COUNT list|text|print";
    let (Some(path), Some(word)) = (env::args(&rt)?.nth(1), env::args(&rt)?.nth(2)) else {
        bail!("{usage}");
    };
    let (Some(count), Some(pass)) = (env::args(&rt)?.nth(3), env::args(&rt)?.nth(4)) else {
        bail!("{usage}");
    };
    let (Some(kind), Ok(count)) = (kind_of(word.as_str()), count.parse::<u32>()) else {
        bail!("{usage}");
    };
    let bytes = read_all(alloc, &mut HostShelf::new(rt), path.as_str())?;
    let model = model(alloc, kind)?;
    let bounds = list_of(alloc, kind, count)?;
    let pass = pass_of(pass.as_str());
    let text = written(alloc, pass, &bytes, &model, &bounds)?;
    say(rt, pass, text)
}

/// Says what came of the pass.
fn say(rt: HostRuntime, pass: Pass, text: Vec<u8>) -> anyhow::Result<()> {
    match pass {
        Pass::List => println!(rt; "a list")?,
        Pass::Text => println!(rt; "{} bytes", text.len())?,
        Pass::Print => print(rt, text)?,
    }
    Ok(())
}

fn print(rt: HostRuntime, text: Vec<u8>) -> anyhow::Result<()> {
    let Ok(text) = String::from_utf8(text) else {
        bail!("the text is not in UTF-8");
    };
    println!(rt; "{}", text.as_str())?;
    Ok(())
}
