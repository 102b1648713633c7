// The words of the command line.
use fs_model::Memory;
use std::alloc::{AllocGlobal, Global};
use std::env;
use std::env::Env;
use std::io::ErrorKind;

/// The words of the command line, the program's name first. Words that aren't UTF-8 are no words of the program, and
/// there are none then.
pub fn command_line<R: Env + AllocGlobal>(rt: &R, alloc: Global) -> Result<Vec<String>, Memory> {
    match env::args(rt) {
        Ok(words) => Ok(words.collect(alloc)?),
        Err(error) if error.kind() == ErrorKind::InvalidData => Ok(Vec::new(alloc)),
        Err(_) => Err(Memory),
    }
}
