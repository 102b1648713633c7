// How a call of the program ends.
ghost use Rattle.std.specs.Prelude.{◌≡◌};
ghost use Rattle.image_reader.specs.Endings.{exit_code};

use crate::rule_texts::rule_text;
use fs_model::Memory;
use std::alloc::Global;
use store_image::Fault;

/// How a call ended.
#[derive(Clone, Copy, Debug, PartialEq, Eq)]
pub enum Ending {
    /// The region is sound, and its pairs were written.
    Shown,
    /// A read of the input failed.
    SourceFault,
    /// A write of the output failed.
    SinkFault,
    /// The region is not sound, and this is the first rule that it breaks.
    Faulty(Fault),
    /// No memory was to be had.
    Memory,
}

impl Ending {
    /// The status with which the program exits.
    pub fn code(&self) -> u8
        ensures { result ≡ exit_code self.now }
    {
        match self {
            Ending::Shown => 0,
            Ending::SourceFault => 3,
            Ending::SinkFault => 4,
            Ending::Faulty(_) => 6,
            Ending::Memory => 8,
        }
    }

    /// The line for standard error, without a newline at its end. There is none at `Shown`, and the text is empty.
    pub fn text(&self, alloc: Global) -> Result<String, Memory> {
        let text = match self {
            Ending::Shown => format!(in alloc; "")?,
            Ending::SourceFault => format!(in alloc; "image_reader: reading the input failed")?,
            Ending::SinkFault => format!(in alloc; "image_reader: writing the output failed")?,
            Ending::Faulty(fault) => fault_text(alloc, fault)?,
            Ending::Memory => format!(in alloc; "image_reader: out of memory")?,
        };
        Ok(text)
    }
}

// What is said of a region that is not sound.
fn fault_text(alloc: Global, fault: &Fault) -> Result<String, Memory> {
    let text = match fault {
        Fault::NotARegion { rule } => format!(in alloc;
            "image_reader: rule {rule} is broken: {}",
            rule_text(*rule)
        )?,
        Fault::Damaged { part, chunk, rule } => format!(in alloc;
            "image_reader: rule {rule} is broken in part {part}, chunk {chunk}: {}",
            rule_text(*rule)
        )?,
    };
    Ok(text)
}
