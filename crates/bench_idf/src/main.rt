//! Writes the IDF text of generated boundaries: `bench_idf KIND COUNT list|text|print`, where the kind is one
//! of `one`, `own`, `ten`, `ten_own`, `steep`, `short`, `long`, `apart` and `alike`. With `list` it only makes
//! the list, with `print` it prints the text. It serves to time the IDF text alone.
#![tactic(auto)]

mod kind;
mod lists;
mod models;
mod texts;

use crate::kind::kind_of;
use crate::lists::list_of;
use crate::models::model;
use crate::texts::{Pass, pass_of, written};
use anyhow::bail;
use std::env;

fn main(rt: HostRuntime) -> anyhow::Result<()> {
    let alloc = rt.alloc();
    let usage = "usage: bench_idf KIND COUNT list|text|print";
    let (Some(word), Some(count)) = (env::args(&rt)?.nth(1), env::args(&rt)?.nth(2)) else {
        bail!("{usage}");
    };
    let (Some(kind), Ok(count)) = (kind_of(word.as_str()), count.parse::<u32>()) else {
        bail!("{usage}");
    };
    let Some(pass) = env::args(&rt)?.nth(3) else {
        bail!("{usage}");
    };
    let model = model(alloc, kind, count)?;
    let bounds = list_of(alloc, kind, count)?;
    let pass = pass_of(pass.as_str());
    let text = written(alloc, pass, &model, &bounds)?;
    say(rt, pass, text)
}

/// Says what came of the pass.
fn say(rt: HostRuntime, pass: Pass, text: Vec<u8>) -> anyhow::Result<()> {
    match pass {
        Pass::List => println!(rt; "a list")?,
        Pass::Text => println!(rt; "{} bytes", text.len())?,
        Pass::Print => print(rt, text)?,
    }
    Ok(())
}

fn print(rt: HostRuntime, text: Vec<u8>) -> anyhow::Result<()> {
    let Ok(text) = String::from_utf8(text) else {
        bail!("the text is not in UTF-8");
    };
    println!(rt; "{}", text.as_str())?;
    Ok(())
}
