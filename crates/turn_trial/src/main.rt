//! Tries the turn: without words by a short run, and with the word `rates` by how many turns a second there are.
#![tactic(auto)]

mod rates;
mod recorder;
#[cfg(test)]
mod tests;
mod trial;

use crate::rates::print_rates;
use crate::trial::run;
use std::{env, io};

fn main(rt: HostRuntime) -> io::Result<()> {
    let alloc = rt.alloc();
    if let Some(word) = env::args(&rt)?.nth(1) {
        if word.as_str() == "rates" {
            return print_rates(&rt, alloc);
        }
    }
    match run(&rt, alloc, 2, 1000) {
        Some((_, journal)) => println!(rt; "{} events", journal.len()),
        None => println!(rt; "there was no memory"),
    }
}
