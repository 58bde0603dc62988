//! Places of leaves, and leaves as words.

ghost use Rattle.std.specs.Prelude.{◌≡◌, ◌+◌, ◌*◌, ◌/◌, ◌%◌, ◌^◌, ◌<◌, ◌⊎◌};
ghost use Rattle.xl_model.specs.Addresses.{pages_of};
ghost use Rattle.xl_model.specs.Chains.{tag_of as tag_number};
ghost use Rattle.xl_model.specs.Placing.{no_moves};
ghost use Rattle.xl_model.specs.Structures.{work_of};
ghost use Rattle.xl_model.specs.declared.work.NoRoom.TheVariants as why;
ghost use Rattle.xl_tagged.specs.Slots.{leaf_said as said, leaf_read as read, small_known};
ghost use Rattle.xl_model.specs.declared.address.Order.TheVariants as orders;
ghost use Rattle.xl_tagged.specs.Steps.{given_word};

use xl_model::{Leaf, NoRoom, Order, Perm, Refused, Work};
use xl_pte::{Pte, decode, leaf_word, small_word};

/// The tag under which a page of this order is, where each tag has `group` pages: one or sixteen.
#[inline(always)]
pub fn tag_of(group: u64, space: u16, order: Order, page: u64) -> u64
    requires group { (group ≡ 1) ⊎ (group ≡ 16) }
    requires space_in { space < 64 }
    requires page_in { page < 2 ^ 45 }
    ensures { result ≡ tag_number group space order page }
{
    let key = space as u64 * (1 << 45) + page / order.pages() / group;
    order.level() as u64 * (1 << 60) + key
}

/// The slot of a page of this order under its tag.
#[inline(always)]
pub fn slot_of(group: u64, order: Order, page: u64) -> usize
    requires { (group ≡ 1) ⊎ (group ≡ 16) }
    ensures is { result ≡ page / pages_of order % group }
    ensures below { result < group }
{
    (page / order.pages() % group) as usize
}

/// The leaf that a PTE says, which is number `number` of its order.
#[inline(always)]
fn leaf_said(space: u16, order: Order, number: u64, pte: Pte) -> Option<Leaf>
    requires { number < 2 ^ 45 }
    ensures { result ≡ said space order number pte }
{
    match pte {
        Pte::Leaf { frame, perm } => Some(Leaf {
            space,
            first: number * order.pages(),
            order,
            frame,
            perm,
        }),
        _ => None,
    }
}

/// The leaf of this order in which a page lies, as its word says it; None where the word says none,
/// as 0 does.
#[inline(always)]
pub fn leaf_read(space: u16, order: Order, page: u64, word: u64) -> Option<Leaf>
    requires { page < 2 ^ 45 }
    ensures { result ≡ read space order (page / pages_of order) word }
{
    leaf_said(
        space,
        order,
        page / order.pages(),
        decode(word, order.level()),
    )
}

/// The frame (times 16) and the permission of the leaf of 4 KiB of a page, as the page's word says
/// it; None where the word says none.
#[inline(always)]
pub fn small_read(_space: u16, _page: u64, word: u64) -> Option<u64>
    ensures { small_known _space _page result
        ≡ read _space orders.K4 (_page / pages_of orders.K4) word }
{
    small_word(word)
}

/// The word of the frame that a leaf's word names, with this permission.
pub fn give_perm(word: u64, perm: Perm) -> u64
    ensures { result ≡ given_word perm word }
{
    leaf_word((word >> 10) % (1 << 44), perm)
}

/// The result for a leaf for which a table has no room.
pub fn full_table() -> Refused
    ensures { result ≡ record { why = why.NoTable; work = work_of no_moves 0 } }
{
    Refused {
        why: NoRoom::NoTable,
        work: Work::none(),
    }
}
