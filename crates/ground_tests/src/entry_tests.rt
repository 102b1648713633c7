ghost use Rattle.std.specs.Prelude.{◌≡◌, ◌<◌, [], length, IfOk};

use fs_model::{Memory, Value};
use log_entry::{
    Body, Entry, EntryName, Read, WordBuffer, entry_lines, entry_words, read_entry, write_entry,
};
use std::alloc::Global;
use std::test::Fail;

/// The word whose bytes these are, the first the lowest.
fn word(bytes: [u8; 8]) -> u64 {
    u64::from_le_bytes(bytes)
}

// What is read at a place: key, version, how many words it has, and what it is; of what is no entry only what it is, and
// of a bad one the rule as its length.
fn read(alloc: Global, words: &[u64], at: u64) -> Result<(u64, u32, u64, &'static str), Fail>
    requires { at < length words.now }
{
    Ok(match read_entry(alloc, words, at)? {
        Read::Entry { entry, length } => (entry.key, entry.version, length, kind_of(&entry.body)),
        Read::Padding => (0, 0, 0, "padding"),
        Read::BadEntry { rule } => (0, 0, rule as u64, "bad"),
    })
}

fn kind_of(body: &Body) -> &'static str {
    match body {
        Body::Embedded(value) if value.bytes() == b"abc".as_slice() => "abc",
        Body::Embedded(value) if value.bytes() == b"q".as_slice() => "q",
        Body::Embedded(_) => "another value",
        Body::Pointer(17) => "block 17",
        Body::Pointer(_) => "another block",
        Body::Tombstone => "delete",
    }
}

#[test]
fn the_vectors_are_read(rt: HostRuntime) -> Result<(), Fail> {
    let words = [
        word([0x15, 0, 0, 3, 0, 0, 0, 0]),
        5,
        word([0x61, 0x62, 0x63, 0, 0, 0, 0, 0]),
        word([0x22, 0, 0, 0, 0, 0, 0, 0]),
        5,
        word([0x11, 0, 0, 0x11, 0, 0, 0, 0]),
        2,
        word([0xe5, 0xff, 0xff, 1, 0, 0, 0, 0]),
        9,
        0x71,
        0,
    ];
    for (at, found) in [
        (0, (5, 1, 3, "abc")),
        (3, (5, 2, 2, "delete")),
        (5, (2, 1, 2, "block 17")),
        (7, (9, 1048574, 3, "q")),
        (8, (0, 0, 2, "bad")),
        (10, (0, 0, 0, "padding")),
    ] {
        assert_eq!(rt; read(rt.alloc(), &words, at)?, found, "at {at}");
    }
    Ok(())
}

/// Writes the vectors behind each other. Gives words and lines of the first, and its name.
fn write_vectors(alloc: Global, buffer: &mut WordBuffer) -> Result<(u64, u64, EntryName), Memory>
    requires empty { buffer.old.words ≡ [] }
    requires room { buffer.old.room ≡ 10 }
    ensures { IfOk result (λ _. buffer.new.room ≡ 10) }
{
    let embedded = Entry {
        key: 5,
        version: 1,
        body: Body::Embedded(Value::of(Vec::from_slice(alloc, b"abc")?)),
    };
    let last = Entry {
        key: 9,
        version: 1048574,
        body: Body::Embedded(Value::of(Vec::from_slice(alloc, b"q")?)),
    };
    let words = entry_words(&embedded);
    let lines = entry_lines(&embedded);
    write_entry(&embedded, buffer);
    write_entry(
        &Entry {
            key: 5,
            version: 2,
            body: Body::Tombstone,
        },
        buffer,
    );
    write_entry(
        &Entry {
            key: 2,
            version: 1,
            body: Body::Pointer(17),
        },
        buffer,
    );
    write_entry(&last, buffer);
    let name = EntryName {
        key: embedded.key,
        version: embedded.version,
    };
    Ok((words, lines, name))
}

/// What is seen of the first vector, whether all four are these words, and whether the buffer then has a 7 alone that
/// was emptied and given it.
fn seen_of_vectors(
    alloc: Global,
    wanted: &[u64],
) -> Result<((u64, u64, EntryName), bool, bool), Memory> {
    let mut buffer = WordBuffer::with_room(alloc, 10)?;
    let first = write_vectors(alloc, &mut buffer)?;
    let same = buffer.words() == wanted;
    buffer.clear();
    buffer.push(7);
    Ok((first, same, buffer.words() == [7].as_slice()))
}

#[test]
fn the_vectors_are_written(rt: HostRuntime) -> Result<(), Fail> {
    let wanted = [
        word([0x15, 0, 0, 3, 0, 0, 0, 0]),
        5,
        word([0x61, 0x62, 0x63, 0, 0, 0, 0, 0]),
        word([0x22, 0, 0, 0, 0, 0, 0, 0]),
        5,
        word([0x11, 0, 0, 0x11, 0, 0, 0, 0]),
        2,
        word([0xe5, 0xff, 0xff, 1, 0, 0, 0, 0]),
        9,
        0x71,
    ];
    let ((words, lines, name), same, is_seven) = seen_of_vectors(rt.alloc(), &wanted)?;
    assert_eq!(rt; (words, lines), (3, 1));
    assert!(rt; name == EntryName { key: 5, version: 1 });
    assert!(rt; same, "the four entries are spelled as the vectors are");
    assert!(rt; is_seven, "a word stands in a buffer that was emptied");
    Ok(())
}
