// The rules of soundness in plain words.

/// What a sound region keeps to by this rule.
pub fn rule_text(rule: u32) -> &'static str {
    match rule {
        1 => "a region has a multiple of 8 bytes, from 4,096 to 268,439,552",
        2 => "words 0 and 1 are the magic and the number of the format",
        3 => "words 2 to 5 are a layout, and the region is as long as it says",
        4 => "the kind of a chunk is Free, Log, or Data of a class of the layout",
        5 => "the tail of a Log is a multiple of 8 within the payload",
        6 => "the words up to the tail are batches",
        7 => "the key of an entry is owned by a core of the part's group",
        8 => "entries of one key and version have one body, and stand in one part",
        9 => "a pointer of a live key is the start of a block of its owner",
        10 => "the length in a block is one of the chunk's class",
        11 => "no two live keys share a block",
        _ => "there is such a rule",
    }
}
