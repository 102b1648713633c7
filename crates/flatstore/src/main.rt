//! The program `flatstore`: a key-value store in a region file.
#![tactic(auto)]

mod terminal_watch;

use core_worker::OpenGate;
use flatstore_commands::{Status, command_line, flatstore, region_path};
use fs_model::Memory;
use fs_text::{StdSink, StdSource};
use region_file::FileRegion;
use std::alloc::Global;
use std::io;
use std::process::ExitCode;
use std::sync::Wait;
use std::thread::Threads;
use std::time::Clock;
use terminal_watch::TerminalWatch;

/// Does what the command line asks, with the region in its file, standard input and standard output. The
/// runtime is handed in twice, as what it is and as the leave to start threads and to wait for them.
fn run(
    rt: &HostRuntime,
    threads: &(impl Threads + Wait + Clock + Sync),
    alloc: Global,
) -> Result<Status, Memory> {
    let words = command_line(rt, alloc)?;
    let path = match region_path(alloc, &words)? {
        Some(path) => path,
        // it is never opened
        None => String::new(alloc),
    };
    let own = match rt.clone() {
        Ok(own) => own,
        Err(_) => return Err(Memory),
    };
    let mut region = FileRegion::at(own, path);
    let mut source = StdSource::over(rt.reader());
    let mut sink = StdSink::over(io::writer(rt));
    let mut watch = TerminalWatch::on(rt);
    let report = flatstore(
        threads,
        alloc,
        &words,
        &mut source,
        &mut sink,
        &mut region,
        &OpenGate,
        &mut watch,
    );
    watch.clear();
    Ok(report.status)
}

/// Says on standard error why a call failed. A write that fails there is let go: the exit status says the same.
fn complain(rt: &HostRuntime, alloc: Global, status: Status) {
    if status == Status::Done {
        return;
    }
    match status.text(alloc) {
        Ok(text) => {
            let _ = eprintln!(rt; "{text}");
        }
        Err(_) => {
            let _ = eprintln!(rt; "flatstore: out of memory");
        }
    }
}

fn main(rt: HostRuntime) -> ExitCode {
    let alloc = rt.alloc();
    let status = match run(&rt, &rt, alloc) {
        Ok(status) => status,
        Err(_) => Status::Memory,
    };
    complain(&rt, alloc, status);
    ExitCode::from(status.code())
}
