//! Walks the members of a group again and again, and prints the sum of what it read: as the rows that the
//! group lends, or as a view and a look-up of each row. `bench/walk.py` measures both.
#![tactic(auto)]

mod scene;
mod walks;

use anyhow::{Context, Result, bail};
use scene::moving_scene;
use std::env;
use walks::{sum_of_rows, sum_of_view};

/// The words are `rows` or `view`, how many members there are, and how many times they are walked.
fn main(rt: HostRuntime) -> Result<()> {
    let mut words = env::args(&rt)?;
    let _name = words.next();
    let (Some(way), Some(count), Some(times)) = (words.next(), words.next(), words.next()) else {
        bail!("three words are wanted: rows or view, how many members, how many walks");
    };
    let count = count.parse::<u32>().context("how many members")?;
    let times = times.parse::<u32>().context("how many walks")?;
    let scene = moving_scene(rt.alloc(), count)?;
    let mut sum = 0i64;
    for _walk in 0..times {
        let read = match way.as_str() {
            "rows" => sum_of_rows(&scene)?,
            _ => sum_of_view(rt.alloc(), &scene)?,
        };
        sum = sum.wrapping_add(read);
    }
    println!(rt; "{sum}")?;
    Ok(())
}
