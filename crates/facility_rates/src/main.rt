//! Runs commands of the structures of the facility, so that their cost can be taken.
//!
//! Without words it runs some. `locks N M` runs M pairs of an obtain and a release over N entries and N records.
//!
//! `pages N M F P ORDER D` runs M reads of pages, and a write for each fourth, over a cache of N entries, all with bytes,
//! for members with F frames each, on P pages with numbers that are D apart, in the order of their numbers or, where ORDER
//! is `scattered`, in another. `copies ..` makes the same copies of pages without a cache. `reads ..` reads entries without
//! bytes, so that nothing is copied. `tests ..` tests F frames. F is 256 where it is left out, P is N, and D is 1.
#![tactic(auto)]

mod copies;
mod locks;
mod pages;
mod walk;

use crate::copies::run_copies;
use crate::locks::run_locks;
use crate::pages::{run_pages, run_reads, run_tests};
use crate::walk::Walk;
use ds_base::NoMemory;
use std::alloc::Global;
use std::{env, io};

fn number_of(word: Option<&String>, usual: u32) -> u32 {
    match word {
        Some(word) => word.as_str().parse().unwrap_or(usual),
        None => usual,
    }
}

fn is_word(word: Option<&String>, wanted: &str) -> bool {
    match word {
        Some(word) => word.as_str() == wanted,
        None => false,
    }
}

fn run(alloc: Global, words: &[String]) -> Result<u64, NoMemory> {
    let entries = number_of(words.get(2), 16).max(1);
    let times = number_of(words.get(3), 8);
    let frames = number_of(words.get(4), 256).clamp(1, 32_767) as u16;
    let walk = Walk {
        pages: number_of(words.get(5), entries),
        apart: number_of(words.get(7), 1),
        is_scattered: is_word(words.get(6), "scattered"),
    };
    let kind = words.get(1);
    if is_word(kind, "pages") {
        run_pages(alloc, entries, frames, walk, times)
    } else if is_word(kind, "copies") {
        run_copies(alloc, entries, walk, times)
    } else if is_word(kind, "reads") {
        run_reads(alloc, entries, frames, walk, times)
    } else if is_word(kind, "tests") {
        run_tests(alloc, entries, frames, walk, times)
    } else {
        run_locks(alloc, entries, times)
    }
}

fn main(rt: HostRuntime) -> io::Result<()> {
    let alloc = rt.alloc();
    let mut words = Vec::new(alloc);
    for word in env::args(&rt)? {
        words.push(word)?;
    }
    match run(alloc, words.as_slice()) {
        Ok(done) => println!(rt; "{done} commands"),
        Err(NoMemory) => println!(rt; "there was no memory"),
    }
}
