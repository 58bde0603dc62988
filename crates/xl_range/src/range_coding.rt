//! How a range is kept in an item of a recency list: its key is the tag, and one word has its
//! frame, its order and its permission.

ghost use Rattle.std.specs.Prelude.{◌≡◌, ◌<◌, ◌≤◌, ◌^◌, ◌+◌, ◌*◌, ◌/◌, ◌%◌};
ghost use Rattle.xl_model.specs.Ranges.{holds_page};
ghost use Rattle.xl_model.specs.Caches.{reaches_range};
ghost use Rattle.xl_model.specs.Addresses.{order_at};
ghost use Rattle.xl_range.specs.RangeCoding.{IsKeepable, item_of_range as kept_as, range_of as range_in, item_at};

use xl_model::{Order, Range, Reach, perm_code, perm_of};

/// An item of a range TLB: the tag is the key of the range's first page, and the word has its frame
/// (times 64), its order (times 16) and its permission.
#[derive(Clone, Copy)]
pub(crate) struct RangeItem {
    pub(crate) tag: u64,
    pub(crate) pages: u64,
    pub(crate) word: u64,
}

/// Fills unused slots of a list.
pub(crate) const BLANK: RangeItem = RangeItem {
    tag: 0,
    pages: 0,
    word: 0,
};

/// The order of a number.
fn order_of(number: u64) -> Order
    ensures { result ≡ order_at number }
{
    match number {
        0 => Order::K4,
        1 => Order::M2,
        _ => Order::G1,
    }
}

/// The item that keeps a range.
#[tactic(auto, unfolding(crate::specs::RangeCoding::item_of_range))]
pub(crate) fn item_of_range(range: Range) -> RangeItem
    requires { IsKeepable range }
    ensures { result ≡ kept_as range }
{
    RangeItem {
        tag: range.space as u64 * (1 << 52) + range.start,
        pages: range.pages,
        word: (range.frame * 4 + range.order.level() as u64) * 16 + perm_code(range.perm),
    }
}

/// The range that an item keeps.
#[tactic(auto, unfolding(crate::specs::RangeCoding::range_of))]
pub(crate) fn range_of(item: &RangeItem) -> Range
    ensures { result ≡ range_in item.now }
{
    Range {
        space: (item.tag >> 52) as u16,
        start: item.tag % (1 << 52),
        pages: item.pages,
        frame: item.word / 16 / 4,
        order: order_of(item.word / 16 % 4),
        perm: perm_of(item.word),
    }
}

/// Whether the range holds the page of the space.
#[inline]
pub(crate) fn is_in(range: &Range, space: u16, page: u64) -> bool
    ensures { result ≡ holds_page space page range.now }
{
    range.space == space && range.start <= page && page - range.start < range.pages
}

/// The key of a page of a space.
pub(crate) fn key_of(space: u16, page: u64) -> u64
    requires space_in { space < 64 }
    requires page_in { page < 2 ^ 52 }
    ensures { result ≡ space * 2 ^ 52 + page }
{
    space as u64 * (1 << 52) + page
}

/// Whether the item's range holds the page with this key, where the range ends within its space. On
/// which side of the page a range begins can't be foretold, so that is not asked: before a range's
/// first page the difference wraps, and is more than any number of pages.
#[inline(always)]
pub(crate) fn holds(item: &RangeItem, key: u64) -> bool
    ensures { result ≡ item_at key item.now }
{
    key.wrapping_sub(item.tag) < item.pages
}

/// Whether a fence reaches the item's range.
pub(crate) fn reaches(item: &RangeItem, reach: Reach) -> bool
    ensures { result ≡ reaches_range reach (range_in item.now) }
{
    let range = range_of(item);
    match reach {
        Reach::All => true,
        Reach::Space { space } => range.space == space,
        Reach::Addr { page } => is_in(&range, range.space, page),
        Reach::Page { space, page } => is_in(&range, space, page),
    }
}
