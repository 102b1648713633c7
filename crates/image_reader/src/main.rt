//! The program `image_reader`: what the bytes of a region say, by the yardstick and not by the store. It reads a
//! region from standard input and writes its live pairs, or the first rule of soundness that it breaks.
#![tactic(auto)]

mod ending;
mod image_bytes;
mod image_reading;
mod region_reading;
mod rule_texts;

use ending::Ending;
use fs_text::{StdSink, StdSource};
use region_reading::read_region;
use std::alloc::Global;
use std::io;
use std::process::ExitCode;

/// Says on standard error why no pairs were written. A write that fails there is let go: the exit status says the same.
fn complain(rt: &HostRuntime, alloc: Global, ending: Ending) {
    if ending == Ending::Shown {
        return;
    }
    match ending.text(alloc) {
        Ok(text) => {
            let _ = eprintln!(rt; "{text}");
        }
        Err(_) => {
            let _ = eprintln!(rt; "image_reader: out of memory");
        }
    }
}

fn main(rt: HostRuntime) -> ExitCode {
    let alloc = rt.alloc();
    let mut source = StdSource::over(rt.reader());
    let mut sink = StdSink::over(io::writer(&rt));
    let ending = read_region(alloc, &mut source, &mut sink);
    complain(&rt, alloc, ending);
    ExitCode::from(ending.code())
}
