ghost use Rattle.std.specs.List.Sorted.{IsPermutation};

use bam_code::item::Item;
use bam_code::place::Place;

/// Puts items in order: arguments, then registers, then slots, each by ascending numbers.
pub fn sort_items(items: &mut Vec<Item>)
    ensures { IsPermutation items.old.items items.new.items }
{
    items.sort_unstable_by_key(|item| order(item));
}

/// Where an item stands among others: its kind, and its number.
fn order(item: &Item) -> (u8, u16) {
    match item {
        Item::Argument { argument, .. } => (0, u16::from(*argument)),
        Item::Place {
            place: Place::Register(number),
            ..
        } => (1, *number),
        Item::Place {
            place: Place::Slot(number),
            ..
        } => (2, u16::from(*number)),
    }
}
