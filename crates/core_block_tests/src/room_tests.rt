// Refusals by their numbers. Expected values are those of the room rule.
ghost use Rattle.std.specs.Prelude.{◌≡◌};

use chunk_map::Layout;
use core_room::{
    Counts, Shortage, Supply, byte_count, class_or_zero, lines_needed, lines_to_copy, longest_value,
};
use std::test::Fail;

fn supply(free_chunks: u32, open_lines: u64, own_lines: u64, rest_lines: u64) -> Supply
    ensures own { result.own_lines ≡ own_lines }
    ensures rest { result.rest_lines ≡ rest_lines }
{
    Supply {
        free_chunks,
        open_lines,
        own_lines,
        rest_lines,
    }
}

// 4 free lines, and the entry needs 5.
const FULL: Counts = Counts {
    free_chunks: 1,
    open_lines: 4,
    pledged_lines: 0,
    need_lines: 5,
    class: 0,
    free_blocks: 0,
};

// Two chunks are free, and both are needed for the log.
const NO_BLOCK: Counts = Counts {
    free_chunks: 2,
    open_lines: 0,
    pledged_lines: 6,
    need_lines: 1,
    class: 2,
    free_blocks: 0,
};

#[test]
fn refusals(rt: HostRuntime) {
    let room = [
        supply(1, 4, 0, 0).shortage(5, 0, 0),
        supply(1, 5, 0, 0).shortage(5, 0, 0),
        supply(2, 0, 6, 0).shortage(5, 0, 0),
    ];
    let block = [
        supply(2, 0, 5, 1).shortage(1, 2, 0),
        supply(2, 0, 5, 1).shortage(1, 2, 1),
        supply(3, 0, 5, 1).shortage(1, 2, 0),
        supply(2, 7, 5, 1).shortage(1, 2, 0),
    ];
    assert_eq!(rt;
        (room, block),
        (
            [Some(Shortage::Room(FULL)), None, None],
            [Some(Shortage::Block(NO_BLOCK)), None, None, None]
        )
    );
}

// What is needed for values of several lengths, for copies of entries and words, and at most.
#[derive(Clone, Copy, Debug, PartialEq, Eq)]
struct Needed {
    lines: [u64; 5],
    classes: [u32; 3],
    lines_to_copy: [u64; 3],
    longest_value: u64,
    bytes: u64,
}

fn needed_of(layout: &Layout) -> Needed {
    Needed {
        lines: [
            lines_needed(0),
            lines_needed(48),
            lines_needed(49),
            lines_needed(255),
            lines_needed(256),
        ],
        classes: [class_or_zero(255), class_or_zero(256), class_or_zero(1000)],
        lines_to_copy: [
            lines_to_copy(0, 0),
            lines_to_copy(1, 2),
            lines_to_copy(65, 130),
        ],
        longest_value: longest_value(layout),
        bytes: byte_count(&[7, 8, 9]),
    }
}

const NEEDED: Needed = Needed {
    lines: [1, 1, 2, 5, 1],
    classes: [0, 1, 2],
    lines_to_copy: [0, 2, 19],
    longest_value: 1016,
    bytes: 3,
};

#[test]
fn needs(rt: HostRuntime) -> Result<(), Fail> {
    let needed = needed_of(&Layout::new(1, 1, 4, 4096)?);
    assert_eq!(rt; needed, NEEDED);
    Ok(())
}
