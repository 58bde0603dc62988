//! Words in slots under tags: how chains of one slot under a tag, and of sixteen, find the word of
//! a page.

ghost use Rattle.std.specs.Prelude.{◌≡◌, ◌<◌, ◌^◌};
ghost use Rattle.xl_model.specs.Chains.{tag_of as tag_number};
ghost use Rattle.xl_model.specs.Walks.{chain_reads};
ghost use Rattle.xl_chain.specs.Held.{ChainState, tags_of};
ghost use Rattle.xl_tagged.specs.Forms.{Form, One, Sixteen, group_of, slot_of as slot_number, values_under, word_at};
ghost use Rattle.xl_tagged.specs.Slots.{order_loads, loaded_more};
ghost use Rattle.xl_tagged.specs.Steps.{word_found};

use crate::place::{slot_of, tag_of};
use xl_chain::{Chains, Seek};
use xl_model::Order;
use xl_phys::Bus;

/// Chains that hold leaf words in slots under tags.
pub trait Slots: Drop {
    /// How many slots are under a tag, and after how many values.
    ghost form: { Form };

    /// The chains.
    ghost state: { Self → ChainState };

    /// The word in the slot of a page of this order, without loads; 0 where its tag isn't held.
    fn word(&self, space: u16, order: Order, page: u64) -> u64
        requires space_in { space < 64 }
        requires page_in { page < 2 ^ 45 }
        ensures { result ≡ word_at form (values_under (state self.now).held)
            (tag_number (group_of form) space order page) (slot_number form order page) };

    /// The word in the slot of a page of this order, with the loads of the search for its tag, and
    /// with one more for the slot where the tag is held and has sixteen; 0 where it isn't held.
    fn load_word(&mut self, space: u16, order: Order, page: u64) -> u64
        requires space_in { space < 64 }
        requires page_in { page < 2 ^ 45 }
        ensures word { result ≡ word_at form (values_under (state self.old).held)
            (tag_number (group_of form) space order page) (slot_number form order page) }
        ensures after { state self.new ≡
            loaded_more (order_loads form space page (state self.old) order) (state self.old) };

    /// The loads made so far, modulo 2^64.
    fn loads(&self) -> u64
        ensures { result ≡ (state self.now).loads };
}

/// The word that a search found, 0 where it found none.
#[inline(always)]
fn word_of(seek: Seek) -> u64
    ensures { result ≡ word_found seek }
{
    match seek {
        Seek::Found { value, .. } => value,
        _ => 0,
    }
}

/// The word in one of sixteen slots under a tag, without loads; 0 where the tag isn't held.
#[inline(always)]
fn word_in(chains: &Chains<17>, tag: u64, slot: usize) -> u64
    requires { slot < 16 }
    ensures { result ≡ word_at Sixteen (values_under chains.now.held) tag slot }
{
    chains.words_read_back();
    match chains.look(tag) {
        Seek::Found { entry, .. } => chains.value(entry, slot + 1),
        _ => 0,
    }
}

/// The word in one of sixteen slots under a tag, with the loads of the search for the tag, and one
/// more where the tag is held; 0 where it isn't.
#[inline(always)]
fn probe_in(chains: &mut Chains<17>, tag: u64, slot: usize) -> u64
    requires { slot < 16 }
    ensures word { result ≡ word_at Sixteen (values_under chains.old.held) tag slot }
    ensures after { chains.new ≡ loaded_more
        (chain_reads 16 chains.old.shape.buckets (tags_of chains.old.held) tag) chains.old }
{
    chains.words_read_back();
    match chains.probe(tag) {
        Seek::Found { entry, .. } => chains.load_value(entry, slot + 1),
        _ => 0,
    }
}

impl Slots for Chains<1> {
    ghost form = { One };

    ghost state = { λ c. c };

    #[inline(always)]
    fn word(&self, space: u16, order: Order, page: u64) -> u64 {
        word_of(self.look(tag_of(1, space, order, page)))
    }

    #[inline(always)]
    fn load_word(&mut self, space: u16, order: Order, page: u64) -> u64 {
        word_of(self.probe(tag_of(1, space, order, page)))
    }

    fn loads(&self) -> u64 {
        Bus::loads(self)
    }
}

impl Slots for Chains<17> {
    ghost form = { Sixteen };

    ghost state = { λ c. c };

    #[inline(always)]
    fn word(&self, space: u16, order: Order, page: u64) -> u64 {
        let slot = slot_of(16, order, page);
        word_in(self, tag_of(16, space, order, page), slot)
    }

    #[inline(always)]
    fn load_word(&mut self, space: u16, order: Order, page: u64) -> u64 {
        let slot = slot_of(16, order, page);
        probe_in(self, tag_of(16, space, order, page), slot)
    }

    fn loads(&self) -> u64 {
        Bus::loads(self)
    }
}
