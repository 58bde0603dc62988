//! Accesses.

ghost use Rattle.std.specs.Prelude.{◌≡◌, ◌^◌, ◌<◌, None, IfSome};
ghost use Rattle.xl_model.specs.declared.address.Mode.TheVariants as mode;
ghost use Rattle.xl_model.specs.Addresses.{is_canonical, page_of as page_number};
ghost use Rattle.xl_hart_model.specs.Harts.{HartsState, current_hart, hart_accessed, hart_reply};
ghost use Rattle.xl_model.specs.Mapping.{reply_by};
ghost use Rattle.xl_model.specs.Tally.{IsSmall};
ghost use Rattle.xl_model.specs.Tlb.{array_hit};
ghost use Rattle.xl_hart_model.specs.declared.hart.HartSpec.{HartSpec};
ghost use Rattle.xl_radix_walk.specs.Row.{row_table};
ghost use Rattle.xl_harts.specs.Looks.{IsAccess, IsReached, IsWalked};
ghost use Rattle.xl_model.specs.declared.leaf.Reply.TheVariants as reply;
ghost use Rattle.xl_hart_laws.specs.Laws.{IsCoherent};
ghost use Rattle.xl_harts.specs.Events.{AreServed, accesses_served, last_reply};
ghost use Rattle.xl_harts.specs.Views.{IsCurrent, IsServed};

use crate::hart::Hart;
use crate::harts::Harts;
use crate::reply::{reply_of, reply_of_word};
use xl_lackey::Access;
use xl_model::{Kind, Leaf, Mode, PageWalk, Reply, Structure, canonical, page_of};
use xl_radix_walk::RadixRow;

/// The reply by what a walk found.
fn reply_of_found(found: Option<Leaf>, page: u64, kind: Kind) -> Reply
    requires { IfSome found (IsReached page) }
    ensures is { result ≡ reply_by found page kind }
    ensures small { IsSmall result }
{
    match found {
        Some(leaf) => reply_of(leaf, page, kind),
        None => Reply::Unmapped,
    }
}

/// Replies to an access of a page that the hart's array has not, by a walk, whatever that ends
/// with.
#[inline(never)]
fn walk_any(table: &mut RadixRow<3>, hart: &mut Hart, va: u64, page: u64, kind: Kind) -> Reply
    requires served { (spec : HartSpec) × IsServed spec (row_table 3 table.old) hart.old }
    requires page { page ≡ page_number mode.Sv39 va }
    ensures { IsWalked va page kind result (row_table 3 table.old) (row_table 3 table.new) hart.old
        hart.new }
{
    let before = table.loads();
    let space = hart.space();
    match table.walk(space, page) {
        PageWalk::Small { word, .. } => {
            let loads = table.loads().wrapping_sub(before);
            hart.fill_small(page, word, loads);
            let reply = reply_of_word(word, kind);
            hart.reply(reply, va);
            reply
        }
        PageWalk::Any { walk } => {
            let loads = table.loads().wrapping_sub(before);
            hart.fill(walk.leaf, loads);
            let reply = reply_of_found(walk.leaf, page, kind);
            hart.reply(reply, va);
            reply
        }
    }
}

/// Replies to an access of a page that the hart's array has not, by a walk. Mostly the page's leaf
/// is one of 4 KiB that allows the access.
#[inline(never)]
fn walk(table: &mut RadixRow<3>, hart: &mut Hart, va: u64, page: u64, kind: Kind) -> Reply
    requires served { (spec : HartSpec) × IsServed spec (row_table 3 table.old) hart.old }
    requires page { page ≡ page_number mode.Sv39 va }
    ensures { IsWalked va page kind result (row_table 3 table.old) (row_table 3 table.new) hart.old
        hart.new }
{
    let before = table.loads();
    let space = hart.space();
    match table.walk_allowed(space, page, kind, false) {
        Some(word) => {
            let loads = table.loads().wrapping_sub(before);
            hart.fill_small(page, word, loads);
            let reply = reply_of_word(word, kind);
            hart.reply(reply, va);
            reply
        }
        None => walk_any(table, hart, va, page, kind),
    }
}

/// Replies to an access of a hart by its array, or else by a walk.
#[inline(always)]
fn serve(table: &mut RadixRow<3>, hart: &mut Hart, va: u64, kind: Kind) -> Reply
    requires { (spec : HartSpec) × IsServed spec (row_table 3 table.old) hart.old }
    ensures { IsAccess va kind result (row_table 3 table.old) (row_table 3 table.new) hart.old
        hart.new }
{
    if !canonical(Mode::Sv39, va) {
        hart.reply(Reply::NotCanonical, va);
        return Reply::NotCanonical;
    }
    let page = page_of(Mode::Sv39, va);
    match hart.look(page) {
        Some(word) => {
            let reply = reply_of_word(word, kind);
            hart.reply(reply, va);
            reply
        }
        None => walk(table, hart, va, page, kind),
    }
}

/// Serves accesses of a hart, one after another, and returns the reply to the last one; `Unmapped`
/// where there is none. All accesses are served by this one call, so that the look, which is long,
/// is inlined.
#[inline(never)]
fn serve_each(table: &mut RadixRow<3>, hart: &mut Hart, accesses: &[Access]) -> Reply
    requires { (s : HartsState) × IsCurrent s (row_table 3 table.old) hart.old }
    ensures { (s : HartsState) → IsCurrent s (row_table 3 table.old) hart.old →
        AreServed accesses.now s result (row_table 3 table.new) hart.new }
{
    let mut last = Reply::Unmapped;
    for access in accesses {
        last = serve(table, hart, access.va, access.kind);
    }
    last
}

impl Harts {
    /// Serves accesses of the current hart, one after another, and gives the reply to the last one;
    /// `Unmapped` where there is none. No access makes another hart the current one, so it is
    /// looked up once.
    fn access_each(&mut self, accesses: &[Access]) -> Reply
        ensures reply { result ≡ last_reply reply.Unmapped accesses.now self.old }
        ensures after { self.new ≡ accesses_served accesses.now self.old }
    {
        let hart = &mut self.harts[self.current as usize];
        serve_each(&mut self.table, hart, accesses)
    }

    /// Serves accesses of the current hart, one after another, as `step` serves each. Harts are
    /// coherent then, as they were.
    pub fn serve_accesses(&mut self, accesses: &[Access])
        ensures after { self.new ≡ accesses_served accesses.now self.old }
        ensures stays { IsCoherent self.new }
    {
        self.access_each(accesses);
        self.note_coherence();
    }

    /// Serves an access of the current hart.
    pub(crate) fn access(&mut self, va: u64, kind: Kind) -> Reply
        ensures reply { result ≡ hart_reply (current_hart self.old) self.old.table.leaves va kind }
        ensures after { self.new ≡ hart_accessed va kind self.old }
    {
        self.access_each(&[Access { va, kind }])
    }
}
