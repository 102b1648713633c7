// Items by order become one item a name, in place.
ghost use Rattle.std.specs.Prelude.{◌≡◌, ◌+◌, ◌<◌, ◌≤◌, ◌++◌, ◌∷◌, [], false, take, drop, List, length};
ghost use Rattle.std.specs.List.{All};
ghost use Rattle.log_standing.specs.declared.name_item.NameItem.{NameItem as Item};
ghost use Rattle.log_standing.specs.NameItems.{InOrder, IsCounted, IsMerged};

use crate::name_item::{CHUNK_NUMBERS, NameItem, is_same_name};

// The item of a name that stands in this one's chunk.
fn first_of(item: NameItem) -> NameItem
    ensures { result ≡ record item { count = 1; dead = false } }
{
    NameItem {
        count: 1,
        dead: false,
        ..item
    }
}

// The item of a name with one chunk more.
fn with_chunk(last: NameItem, chunk: u8) -> NameItem
    requires few { last.count ≤ last.chunk + 1 }
    requires within { last.chunk < CHUNK_NUMBERS }
    ensures { result ≡ record last { count = last.count + 1; chunk = chunk } }
{
    NameItem {
        count: last.count + 1,
        chunk,
        ..last
    }
}

// Takes one more item in. The first `kept` ones are of one name each, and so are the first ones afterwards, as many
// as is returned.
fn take_in(items: &mut Vec<NameItem>, kept: usize, item: NameItem) -> usize
    requires within { kept < length items.old.items }
    requires counted { All IsCounted (take kept items.old.items) }
    ensures merged { (xs : List Item) → IsMerged xs (take kept items.old.items)
        → InOrder (xs ++ item ∷ []) → IsMerged (xs ++ item ∷ []) (take result items.new.items) }
    ensures kept { result ≤ kept + 1 }
    ensures length { length items.new.items ≡ length items.old.items }
    ensures later { drop (kept + 1) items.new.items ≡ drop (kept + 1) items.old.items }
{
    if kept == 0 || !is_same_name(items[kept - 1], item) {
        items[kept] = first_of(item);
        return kept + 1;
    }
    let last = items[kept - 1];
    if last.chunk != item.chunk {
        items[kept - 1] = with_chunk(last, item.chunk);
    }
    kept
}

/// Makes of each run of one name one item, which has the number of its chunks.
pub fn merge(items: &mut Vec<NameItem>)
    requires { InOrder items.old.items }
    ensures { IsMerged items.old.items items.new.items }
{
    let mut kept = 0;
    for i in 0..items.len() {
        let item = items[i];
        kept = take_in(items, kept, item);
    }
    items.truncate(kept);
}
