//! Laws of harts with queued fences, over the definitions alone. No function here does anything:
//! each is there for its clause.
#![tactic(auto)]

ghost use Rattle.xl_hart_laws.specs.Laws.{HartsAreCoherent, OneListServesAllQueues};

/// After every list of events, the reply to a hart is no older than the last request that it took,
/// and no frame that is mapped anew is reached by an old entry.
pub fn harts_are_coherent()
    ensures { HartsAreCoherent }
{}

/// A request comes into every hart's queue, a hart takes the oldest of its own, and each queue is
/// the newest n of one list.
pub fn one_list_serves_all_queues()
    ensures { OneListServesAllQueues }
{}
