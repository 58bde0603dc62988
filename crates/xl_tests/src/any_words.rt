//! Searches of words that no table makes, worked out by hand.

ghost use Rattle.std.specs.Prelude.{◌≡◌, ◌<◌};

use arrayvec::ArrayVec;
use std::alloc::Global;
use std::test::Fail;
use xl_model::{NoMemory, Order, Perm, WayRegs};
use xl_phys::{Bus, PhysMem};
use xl_pte::{Pte, decode};
use xl_radix_walk::{WalkEnd, walk};
use xl_treap::{Search, Treap};
use xl_way::{Look, look};

/// Whether a user may read, and no more.
fn is_read(perm: Perm) -> bool {
    perm.r && !perm.w && !perm.x && perm.u
}

#[test]
fn the_rules_of_an_entry_are_tested_in_order(rt: HostRuntime) {
    for (word, level) in [(0u64, 0), (1 << 63, 4), (0x10, 3)] {
        assert!(rt;
            matches!(decode(word, level), Pte::Invalid),
            "{word} at {level}"
        );
    }
    for (word, level) in [(1u64 << 54 | 1, 1), (0x5, 0), (0xd, 2), (0x1, 0)] {
        assert!(rt;
            matches!(decode(word, level), Pte::Reserved),
            "{word} at {level}"
        );
    }
    assert!(rt; matches!(decode(0x403, 1), Pte::Misaligned));
    assert!(rt; matches!(decode(0xf1, 4), Pte::Pointer { node: 0 }));
}

/// Index 1 at level 2, index 2 at level 1 and index 3 at level 0.
const PAGE: u64 = (1 << 18) + (2 << 9) + 3;

#[test]
fn a_walk_ends_at_a_leaf_at_no_entry_and_where_no_word_is(rt: HostRuntime) -> Result<(), Fail> {
    let mut memory = PhysMem::open(rt.alloc(), 1536)?;
    memory.poke(1, (1 << 10) + 1);
    memory.poke(2, (5 << 10) + 1);
    memory.poke(514, (2 << 10) + 1);
    memory.poke(1027, (77 << 10) + 19);
    let mut path = ArrayVec::new();
    let end = walk::<PhysMem, 3>(&mut memory, 2, 0, PAGE, &mut path);
    let WalkEnd::Leaf { level, frame, perm } = end else {
        return Err("no leaf".into());
    };
    assert_eq!(rt; (level, frame), (0, 77));
    assert!(rt; is_read(perm));
    assert_eq!(rt; path.as_slice(), [1, 2].as_slice());
    let mut path = ArrayVec::new();
    let end = walk::<PhysMem, 3>(&mut memory, 2, 0, 3 << 18, &mut path);
    assert!(rt; matches!(end, WalkEnd::Invalid { level: 2 }));
    let mut path = ArrayVec::new();
    let end = walk::<PhysMem, 3>(&mut memory, 2, 0, 2 << 18, &mut path);
    assert!(rt; matches!(end, WalkEnd::OutOfBus { level: 1 }));
    assert_eq!(rt; path.as_slice(), [5].as_slice());
    Ok(())
}

/// Key 0 has index 0 of 4 slots in way 1, and index 4 of 8.
#[test]
fn a_look_past_the_words_finds_none(rt: HostRuntime) -> Result<(), Fail> {
    let mut memory = PhysMem::open(rt.alloc(), 8)?;
    memory.poke(1, 7);
    let regs = |s| WayRegs {
        s,
        p: 0,
        growing: false,
    };
    assert!(rt; matches!(look(&mut memory, regs(2), 1, 0), Look::Found(7)));
    assert!(rt; matches!(look(&mut memory, regs(3), 1, 0), Look::OutOfBus));
    Ok(())
}

/// Node 0 has nodes 1 and 2 under it; node 1 has no leaf's word and leads back to node 0; node 2
/// leads to a node that isn't there.
fn no_treap(alloc: Global) -> Result<PhysMem, NoMemory> {
    let mut memory = PhysMem::open(alloc, 12)?;
    memory.poke(0, 10);
    memory.poke(1, 2);
    memory.poke(2, 0xc000_0000_0000_00d3);
    memory.poke(3, 0x3_0000_0002);
    memory.poke(4, 4);
    memory.poke(5, 3);
    memory.poke(7, 1);
    memory.poke(8, 20);
    memory.poke(9, 5);
    memory.poke(10, 0x8000_0000_1000_00d3);
    memory.poke(11, 9);
    Ok(memory)
}

#[test]
fn words_that_are_no_treap_end_a_search(rt: HostRuntime) -> Result<(), Fail> {
    let mut memory = no_treap(rt.alloc())?;
    for (root, nodes, page) in [(1u32, 3u32, 10u32), (1, 3, 5), (1, 2, 30), (0, 0, 5)] {
        let found = Treap::search(&mut memory, root, nodes, 0, page as u64);
        assert!(rt; matches!(found, Search::Absent), "at {page}");
    }
    for (root, nodes, page) in [(1u32, 3u32, 2u32), (1, 2, 2), (1, 0, 5)] {
        let found = Treap::search(&mut memory, root, nodes, 0, page as u64);
        assert!(rt; matches!(found, Search::TooLong), "at {page}");
    }
    let outside = Treap::search(&mut memory, 1, 3, 0, 15);
    assert!(rt; matches!(outside, Search::OutOfBus));
    let Search::Found(range) = Treap::search(&mut memory, 1, 3, 0, 22) else {
        return Err("no range".into());
    };
    assert_eq!(rt; (range.space, range.start, range.pages), (0, 20, 5));
    assert_eq!(rt; range.frame, 0x4_0000);
    assert!(rt; matches!(range.order, Order::G1) && is_read(range.perm));
    assert_eq!(rt; memory.loads(), 15);
    Ok(())
}
