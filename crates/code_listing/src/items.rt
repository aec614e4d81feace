//! The items of which a listing of halfwords is made.

ghost use Rattle.std.specs.Prelude.{◌≡◌, ◌≤◌, ◌<◌, ◌^◌, ◌==◌, ◌∷◌, length, drop};
ghost use Rattle.std.specs.List.{prefix_len};
ghost use Rattle.lane_kernels.specs.Kernels.{is_open};
ghost use Rattle.code_listing.specs.Items.{items_of, size_of_item};

use function_table::halves::is_open_half;

/// An item of a group's halfwords.
#[derive(Clone, Copy)]
pub(crate) enum Item {
    /// So many halfwords 0, one after another.
    Zeros { count: u32 },
    /// An open halfword and the one behind it: 32 bits.
    Wide { low: u16, high: u16 },
    /// Another halfword: 16 bits.
    Short { half: u16 },
}

/// How many halfwords an item has.
pub(crate) fn item_size(item: Item) -> usize
    ensures { result ≡ size_of_item item }
{
    match item {
        Item::Zeros { count } => count as usize,
        Item::Wide { .. } => 2,
        Item::Short { .. } => 1,
    }
}

/// How many halfwords 0 there are before the first other one.
fn leading_zeros(halves: &[u16]) -> usize
    ensures count { result ≡ prefix_len (λ half. half == 0) halves.now }
    ensures within { result ≤ length halves.now }
{
    let mut count = 0;
    while count < halves.len() && halves[count] == 0 {
        count += 1;
    }
    count
}

/// The first item of some halfwords.
pub(crate) fn first_item(halves: &[u16]) -> Item
    requires some { 0 < length halves.now }
    requires few { length halves.now < 2 ^ 32 }
    ensures first { items_of halves.now ≡ result ∷ items_of (drop (size_of_item result) halves.now) }
    ensures forward { 0 < size_of_item result }
    ensures within { size_of_item result ≤ length halves.now }
{
    let half = halves[0];
    if half == 0 {
        let count = leading_zeros(halves) as u32;
        return Item::Zeros { count };
    }
    if is_open_half(half) && halves.len() > 1 {
        return Item::Wide {
            low: half,
            high: halves[1],
        };
    }
    Item::Short { half }
}
