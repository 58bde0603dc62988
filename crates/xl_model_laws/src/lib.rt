//! Laws of the definitions: what holds of every run of a row, and that the definitions are the
//! sentences above them. No function here does anything: each is there for its clause.
#![tactic(auto)]

ghost use Rattle.xl_model_laws.specs.Fresh.{NothingIsStale};
ghost use Rattle.xl_model_laws.specs.Refusals.{ARefusalLeavesNothing};
ghost use Rattle.xl_model_laws.specs.Cuckoo.{KeysHaveTheirSlots, ThePointerIsBelowTheSlots, ARefusalKeepsEveryWord, MigratingMovesNoEntry};
ghost use Rattle.xl_model_laws.specs.Sentences.{TheRangesAreMaximalRuns, ANodeTakesTheLowestNumber};
ghost use Rattle.xl_model_laws.specs.Scenes.{ItemsMayBeServedInParts, ThePrintedTextOnlyGrows, WhatIsPrintedFirstIsFirst, PrintingChangesNoRow, EachRowRunsByItself};
ghost use Rattle.xl_model_laws.specs.Tags.{RoomIsForAllTags, TheTagsAreTheLeaves};
ghost use Rattle.xl_model_laws.specs.Nodes.{TheNodesAreTheMappings, RoomIsForAllNodes};
ghost use Rattle.xl_model_laws.specs.Keys.{EachLeafHasItsKey};
ghost use Rattle.xl_model_laws.specs.Sections.{SectionsAreCountedOnce};
ghost use Rattle.xl_model_laws.specs.Kinds.{ArraysForAllTakeNoNoteOfKinds, AStoreLooksUpAsALoad, AnArrayForOthersStays, AnAccessNeedsItsArraysAlone};
ghost use Rattle.xl_model_laws.specs.Limits.{EachCallKeepsTheLimits, TheLimitsStay};
ghost use Rattle.xl_model_laws.specs.Runs.{TheLeavesAreAMapping, AReplyIsByTheMapping, TheLowestIsTheLeast, TheReadsAreTheLoads, NothingIsCountedBeyondTheArrays};

/// A command refused for another cause than the cap of the ways leaves nothing but its count,
/// whatever events follow.
pub fn a_refusal_leaves_nothing()
    ensures { ARefusalLeavesNothing }
{}

/// After every list of items the leaves are a mapping.
pub fn the_leaves_are_a_mapping()
    ensures { TheLeavesAreAMapping }
{}

/// An access is replied to by the mapping alone.
pub fn a_reply_is_by_the_mapping()
    ensures { AReplyIsByTheMapping }
{}

/// The lowest free block is the least one.
pub fn the_lowest_is_the_least()
    ensures { TheLowestIsTheLeast }
{}

/// Two keys of one way never have one slot, after every list of items.
pub fn keys_have_their_slots()
    ensures { KeysHaveTheirSlots }
{}

/// The rehash pointer of each way is below the way's slots, after every list of items.
pub fn the_pointer_is_below_the_slots()
    ensures { ThePointerIsBelowTheSlots }
{}

/// A cuckoo insertion that finds every way at its cap leaves every key and word as before.
pub fn a_refusal_keeps_every_word()
    ensures { ARefusalKeepsEveryWord }
{}

/// Migrating slots moves no entry.
pub fn migrating_moves_no_entry()
    ensures { MigratingMovesNoEntry }
{}

/// After every list of items each leaf of a TLB array is a leaf of the mapping, each cached node
/// has its number, each cached section the mapping's bits and its leaf's way, and each page of a
/// cached range is covered as the range says.
pub fn nothing_is_stale()
    ensures { NothingIsStale }
{}

/// The ranges of a list of leaves are its maximal runs.
pub fn the_ranges_are_maximal_runs()
    ensures { TheRangesAreMaximalRuns }
{}

/// A new node takes the lowest number that no node has.
pub fn a_node_takes_the_lowest_number()
    ensures { ANodeTakesTheLowestNumber }
{}

/// Items may be served in two parts, one after the other.
pub fn items_may_be_served_in_parts()
    ensures { ItemsMayBeServedInParts }
{}

/// Lines that were written stay, and items add their lines after them.
pub fn the_printed_text_only_grows()
    ensures { ThePrintedTextOnlyGrows }
{}

/// The lines of some items are the beginning of their lines with others after them.
pub fn what_is_printed_first_is_first()
    ensures { WhatIsPrintedFirstIsFirst }
{}

/// What is served does not depend on which lines are written.
pub fn printing_changes_no_row()
    ensures { PrintingChangesNoRow }
{}

/// Rows that are served together end as each ends alone.
pub fn each_row_runs_by_itself()
    ensures { EachRowRunsByItself }
{}

/// A table takes the same spaces and pages after each change, walk and fence.
pub fn each_call_keeps_the_limits()
    ensures { EachCallKeepsTheLimits }
{}

/// After every list of items a row's table takes the spaces and pages that it took when it was
/// opened.
pub fn the_limits_stay()
    ensures { TheLimitsStay }
{}

/// After every list of items the tags of a hashed or clustered table are exactly those of its
/// leaves.
pub fn the_tags_are_the_leaves()
    ensures { TheTagsAreTheLeaves }
{}

/// After every list of items the nodes with numbers are exactly those that the mapping needs, each
/// with one number.
pub fn the_nodes_are_the_mappings()
    ensures { TheNodesAreTheMappings }
{}

/// A radix table has room for a leaf where the nodes of the mapping with it are at most the table's
/// frames.
pub fn room_is_for_all_nodes()
    ensures { RoomIsForAllNodes }
{}

/// After every list of items each leaf of a cuckoo row has its key in one way of its order, and no
/// other key is there.
pub fn each_leaf_has_its_key()
    ensures { EachLeafHasItsKey }
{}

/// Where each array serves all accesses, the kind of an access changes nothing of its look-up.
pub fn arrays_for_all_take_no_note_of_kinds()
    ensures { ArraysForAllTakeNoNoteOfKinds }
{}

/// A store looks a page up as a load does, whatever the arrays serve.
pub fn a_store_looks_up_as_a_load()
    ensures { AStoreLooksUpAsALoad }
{}

/// An access leaves each array that does not serve it as it is, and the array's hits and misses.
pub fn an_array_for_others_stays()
    ensures { AnArrayForOthersStays }
{}

/// An access does in a row what it does in the row with the arrays alone that serve its kind.
pub fn an_access_needs_its_arrays_alone()
    ensures { AnAccessNeedsItsArraysAlone }
{}

/// The reads that a row counts are the loads that were made of its table: those of the walks of its
/// accesses.
pub fn the_reads_are_the_loads()
    ensures { TheReadsAreTheLoads }
{}

/// Hits and misses are counted of a row's arrays alone: the places after them are 0.
pub fn nothing_is_counted_beyond_the_arrays()
    ensures { NothingIsCountedBeyondTheArrays }
{}

/// The tags that room for a leaf counts in a hashed or clustered table are those of its leaves and
/// of the new one, each once: the leaves of a hashed table, the blocks of a clustered one.
pub fn room_is_for_all_tags()
    ensures { RoomIsForAllTags }
{}

/// The sections that room in a cuckoo table counts are those of the leaves, each once.
pub fn sections_are_counted_once()
    ensures { SectionsAreCountedOnce }
{}
