//! Plays the script of the standard input on the disk in the current folder, and reports to the standard output.
#![tactic(auto)]

use ds_base::{ReadSource, WriteSink};
use ds_file_disk::FileDisk;
use group_run::{OpenGate, Status, play};
use std::alloc::Global;
use std::process::ExitCode;
use std::rt::Env;
use std::{env, io};

fn words_of(rt: &(impl Env + AllocGlobal)) -> io::Result<Vec<String>> {
    let mut words = Vec::new(rt.alloc());
    for word in env::args(rt)?.skip(1) {
        words.push(word)?;
    }
    Ok(words)
}

fn current_folder(alloc: Global) -> Option<String> {
    String::from_str(alloc, ".").ok()
}

fn main(rt: HostRuntime) -> ExitCode {
    let alloc = rt.alloc();
    // Words that can't be read are no order.
    let words = words_of(&rt).unwrap_or(Vec::new(alloc));
    let Some(folder) = current_folder(alloc) else {
        return ExitCode::from(Status::NoMemory.number());
    };
    let Ok(files) = rt.clone() else {
        return ExitCode::from(Status::NoMemory.number());
    };
    let mut source = ReadSource::new(rt.reader());
    let mut sink = WriteSink::new(io::writer(&rt));
    let disk = FileDisk::new(files, folder);
    let finished = play(&rt, alloc, &words, &mut source, &mut sink, disk, &OpenGate);
    ExitCode::from(finished.status.number())
}
