//! A guest over a host.

ghost use Rattle.std.specs.Prelude.{◌≡◌, ◌^◌, ◌<◌, IfOk, IfSome};
ghost use Rattle.xl_model.specs.Addresses.{is_canonical};
ghost use Rattle.xl_nested_model.specs.Tally.{IsSmallNest};
ghost use Rattle.xl_nested_model.specs.Nested.{IsNest, nest_accessed, nest_counts, opening_nest, walked_if, with_last};
ghost use Rattle.xl_nested_model.specs.Stages.{guest_reply, host_reply, nested};
ghost use Rattle.xl_model.specs.declared.address.Mode.TheVariants as mode;
ghost use Rattle.xl_nested.specs.Kept.{stage_of};
ghost use Rattle.xl_nested.specs.Laws.{ReplyLaws};
ghost use Rattle.xl_nested.specs.Walks.{IsAt, reply_from, walked_from};

use crate::guest::Guest;
use crate::host::Host;
use crate::leaf::{frame_allowed, frame_in};
use crate::stage::Entry;
use std::alloc::Global;
use std::marker::Model;
use xl_model::{Kind, Mode, NoMemory, canonical, page_of};
use xl_nested_model::{Nest, NestCounts, NestReply};
use xl_phys::Bus;
use xl_radix::Radix;

/// A guest over a host, with counts. Contracts see all three.
#[derive(Drop)]
pub struct Nested {
    pub(crate) guest: Guest,
    pub(crate) host: Host,
    pub(crate) counts: NestCounts,
}

impl Model for Nested {
    ghost use Rattle.xl_nested_model.specs.Nested.{NestState};

    ghost Value = { NestState };

    ghost view = { λ n. record { guest = n.guest; host = n.host; counts = n.counts } };
}

/// The reply by the host's frame for an access.
#[inline(always)]
fn reply_by_host(frame: Option<u64>) -> NestReply
    ensures { result ≡ host_reply frame }
{
    match frame {
        Some(frame) => NestReply::Frame(frame),
        None => NestReply::GuestFault,
    }
}

impl Nested {
    /// A guest and a host without leaves.
    #[tactic(auto, unfolding(xl_nested_model::specs::Nested::opening_nest))]
    pub fn open(alloc: Global, nest: Nest) -> Result<Nested, NoMemory>
        requires { IsNest nest }
        ensures { IfOk result (λ nested. nested ≡ opening_nest nest) }
    {
        let guest = Guest::open(alloc, nest.base, nest.nodes)?;
        let host = Host::open(alloc, nest.frames, nest.g_nodes, nest.g_cache)?;
        let counts = NestCounts::none();
        Ok(Nested {
            guest,
            host,
            counts,
        })
    }

    /// The guest's table, the VS-stage.
    pub fn guest_table(&self) -> &Radix<3>
        ensures { stage_of result.now ≡ self.entry.now.guest.stage }
    {
        self.guest.table()
    }

    /// The host's table, the G-stage.
    pub fn host_table(&self) -> &Radix<3>
        ensures { stage_of result.now ≡ self.entry.now.host.stage }
    {
        self.host.table()
    }

    /// The counts: the reads are the loads of both tables, the hits those of the G cache.
    pub fn counts(&self) -> NestCounts
        ensures { result ≡ nest_counts self.now }
    {
        NestCounts {
            reads: self
                .guest_table()
                .loads()
                .wrapping_add(self.host_table().loads()),
            hits: self.host.hits(),
            ..self.counts
        }
    }

    /// Serves an access: walks both stages, and counts the reply.
    pub fn access(&mut self, va: u64, kind: Kind) -> NestReply
        ensures reply { result ≡ nested self.old.guest self.old.host.stage.leaves va kind }
        ensures after { self.new ≡ nest_accessed va kind self.old }
        ensures laws { ReplyLaws va kind result self.old self.new }
        ensures small { IsSmallNest result }
    {
        let reply = self.walk(va, kind);
        self.counts.reply(reply, va);
        reply
    }

    /// The walk of an access through both stages.
    #[inline(always)]
    fn walk(&mut self, va: u64, kind: Kind) -> NestReply
        ensures reply { result ≡ nested self.old.guest self.old.host.stage.leaves va kind }
        ensures after { self.new ≡ walked_if (is_canonical mode.Sv39 va) va kind self.old }
        ensures small { IsSmallNest result }
    {
        if !canonical(Mode::Sv39, va) {
            return NestReply::PageFault;
        }
        let page = page_of(Mode::Sv39, va);
        let root = self.guest.root(page);
        self.walk_from(2, root, page, kind)
    }

    /// The walk of a page from its node of a level down: the node's guest page is translated, and
    /// the page's word is loaded.
    fn walk_from(&mut self, start: usize, node: u64, page: u64, kind: Kind) -> NestReply
        requires { IsAt start node page self.old.guest }
        ensures reply { result ≡ reply_from start page kind self.old }
        ensures after { self.new ≡ walked_from start page kind self.old }
        ensures small { IsSmallNest result }
    {
        let mut level = start;
        let mut at = node;
        'down: loop {
            let node_page = self.guest.page_of_node(level, at, page);
            let Some(_frame) = self.host.translate(node_page, Kind::Load) else {
                return NestReply::GuestFault;
            };
            match self.guest.load(level, at, page) {
                Entry::Node(next) => {
                    at = next;
                    level -= 1;
                }
                Entry::Small(word) => return self.reach(frame_allowed(word, kind), kind),
                Entry::Leaf(leaf) => return self.reach(frame_in(leaf, page, kind), kind),
                Entry::Nothing => return NestReply::PageFault,
            }
        }
    }

    /// The end of a walk at the guest's leaf: where the leaf allows the access, its guest page is
    /// translated.
    #[inline(always)]
    fn reach(&mut self, guest_page: Option<u64>, kind: Kind) -> NestReply
        requires { IfSome guest_page (λ page. page < 2 ^ 29) }
        ensures reply { result ≡ guest_reply guest_page self.old.host.stage.leaves kind }
        ensures after { self.new ≡ with_last guest_page self.old }
        ensures small { IsSmallNest result }
    {
        match guest_page {
            Some(guest_page) => reply_by_host(self.host.translate(guest_page, kind)),
            None => NestReply::PageFault,
        }
    }
}
