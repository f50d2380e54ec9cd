//! Reads a report with its trace from the standard input, and writes its picture to the standard output.
#![tactic(auto)]

use ds_base::{ReadSource, WriteSink};
use picture_call::call;
use std::process::ExitCode;
use std::rt::Env;
use std::{env, io};

fn words_of(rt: &(impl Env + AllocGlobal)) -> io::Result<Vec<String>> {
    let mut words = Vec::new(rt.alloc());
    for word in env::args(rt)?.skip(1) {
        words.push(word)?;
    }
    Ok(words)
}

fn main(rt: HostRuntime) -> ExitCode {
    let alloc = rt.alloc();
    // Words that can't be read are no order, as two words of nothing aren't.
    let words = words_of(&rt).unwrap_or(Vec::new(alloc));
    let mut source = ReadSource::new(rt.reader());
    let mut sink = WriteSink::new(io::writer(&rt));
    let status = call(alloc, &words, &mut source, &mut sink);
    ExitCode::from(status.number())
}
