// The allocator in its plain form, as the yardstick of a test: it has no bits, chains or counts, and each answer is a
// scan from the lowest unit. It is that of the tests' part, of four chunks of 4,096 bytes behind the region's first
// 4,096.
ghost use Rattle.std.specs.Prelude.{◌<◌, IfSome};

const CHUNKS: usize = 4;

// Units of 256 bytes: those of a chunk, those of the part, and those before it.
const UNITS: usize = 16;

const PART_UNITS: usize = 64;

const FIRST_UNIT: usize = 16;

#[derive(Drop)]
pub struct Plain {
    // Which chunks are free, and the class of the blocks into which each one is cut.
    free: [bool; CHUNKS],
    classes: [Option<u32>; CHUNKS],
    // Whether the block that begins at each unit of the part is allocated.
    allocated: [bool; PART_UNITS],
}

impl Plain {
    /// The part with no chunk cut.
    pub fn free_part() -> Plain {
        Plain {
            free: [true; CHUNKS],
            classes: [None; CHUNKS],
            allocated: [false; PART_UNITS],
        }
    }

    pub fn take(&mut self, class: u32, may_cut: bool) -> Option<u64> {
        if may_cut && self.free_blocks(class) == 0 {
            self.cut(class);
        }
        let unit = self.lowest(class)?;
        self.allocated[unit] = true;
        Some((FIRST_UNIT + unit) as u64)
    }

    pub fn put_back(&mut self, pointer: u64) {
        if let Some(allocated) = self.allocated.get_mut(unit_of(pointer)) {
            *allocated = false;
        }
    }

    pub fn is_allocated(&self, pointer: u64) -> bool {
        self.allocated.get(unit_of(pointer)) == Some(&true)
    }

    pub fn take_chunk(&mut self) -> Option<u32> {
        for chunk in 0..CHUNKS {
            if self.free[chunk] {
                self.free[chunk] = false;
                return Some(chunk as u32);
            }
        }
        None
    }

    pub fn give_chunk(&mut self, chunk: u32) {
        if let Some(free) = self.free.get_mut(chunk as usize) {
            *free = true;
        }
    }

    pub fn free_chunks(&self) -> u32 {
        self.free.iter().filter(|free| **free).count() as u32
    }

    pub fn free_blocks(&self, class: u32) -> u32 {
        (0..PART_UNITS)
            .filter(|unit| self.is_free_block(class, *unit))
            .count() as u32
    }

    // Cuts the lowest free chunk, where there is one.
    fn cut(&mut self, class: u32) {
        if let Some(chunk) = self.take_chunk() {
            if let Some(cut) = self.classes.get_mut(chunk as usize) {
                *cut = Some(class);
            }
        }
    }

    fn lowest(&self, class: u32) -> Option<usize>
        ensures { IfSome result (λ unit. unit < 64) }
    {
        for unit in 0..PART_UNITS {
            if self.is_free_block(class, unit) {
                return Some(unit);
            }
        }
        None
    }

    fn is_free_block(&self, class: u32, unit: usize) -> bool {
        self.classes.get(unit / UNITS) == Some(&Some(class))
            && is_start(class, unit % UNITS)
            && self.allocated.get(unit) == Some(&false)
    }
}

// A pointer below the part gets a unit above it, where no block is allocated.
fn unit_of(pointer: u64) -> usize {
    (pointer as usize).wrapping_sub(FIRST_UNIT)
}

// Whether a block of class 1 or 2 begins at a unit of its chunk: they lie side by side behind the head's unit.
fn is_start(class: u32, unit: usize) -> bool {
    let length = if class == 1 { 2 } else { 4 };
    unit % length == 1 && unit <= UNITS - length
}
