// The top call: a region from a source to a sink.
ghost use Rattle.std.specs.Prelude.{◌≡◌, ◌≤◌, false};
ghost use Rattle.pm_region.specs.State.{Rose};
ghost use Rattle.image_reader.specs.declared.ending.Ending.TheVariants as endings;
ghost use Rattle.image_reader.specs.Endings.{Tells};

use crate::ending::Ending;
use crate::image_reading::{ImageContents, read_image};
use fs_text::{OutError, ReadError, Sink, Source, read_all, write_pairs};
use pm_region::MOST_BYTES;
use std::alloc::Global;

/// Reads a region from a source, and writes its live pairs to a sink where it is sound.
pub fn read_region<S: Source, O: Sink>(alloc: Global, source: &mut S, sink: &mut O) -> Ending
    requires open { S.ended source.old ≡ false }
    ensures tells { Tells result (S.coming source.old) (S.coming source.new) (O.taken sink.old)
        (O.taken sink.new) }
    ensures source_fault { result ≡ endings.SourceFault
        → Rose (S.fault_count source.old) (S.fault_count source.new) }
    ensures sink_fault { result ≡ endings.SinkFault
        → Rose (O.fault_count sink.old) (O.fault_count sink.new) }
{
    let bytes = match read_all(alloc, source, MOST_BYTES as usize + 1) {
        Ok(bytes) => bytes,
        Err(ReadError::SourceFault) => return Ending::SourceFault,
        Err(ReadError::Memory) => return Ending::Memory,
    };
    match read_image(alloc, &bytes) {
        Err(_) => Ending::Memory,
        Ok(ImageContents::Faulty(fault)) => Ending::Faulty(fault),
        Ok(ImageContents::Sound(pairs)) => match write_pairs(alloc, sink, &pairs) {
            Ok(()) => Ending::Shown,
            Err(OutError::SinkFault) => Ending::SinkFault,
            Err(OutError::Memory) => Ending::Memory,
        },
    }
}
