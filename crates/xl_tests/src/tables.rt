//! Calls that any table takes, on the plain table, which the program doesn't have, and on a hashed
//! one whose words are searched afterwards.

ghost use Rattle.std.specs.Prelude.{◌≡◌, ◌<◌, ◌^◌};
ghost use Rattle.xl_model.specs.Structures.{spaces_of, page_limit};

use std::test::Fail;
use xl_chain::{Seek, seek};
use xl_hashed::Hashed;
use xl_model::{Leaf, NoRoom, Order, Perm, Refused, Structure, Work};
use xl_model_table::ListTable;

/// Whether a command cost nothing.
fn is_none(work: Work) -> bool {
    work.kicks == 0
        && work.undone == 0
        && work.migrated == 0
        && work.growths == 0
        && work.invalidated == 0
}

/// Adds a leaf of one page of space 1, None where a leaf overlaps it.
fn added<S: Structure>(table: &mut S, first: u64) -> Option<Result<Work, Refused>>
    requires small { first < 100 }
    requires spaces { spaces_of (S.table table.old).shape ≡ 64 }
    requires pages { page_limit (S.table table.old).shape ≡ 2 ^ 45 }
    ensures spaces { spaces_of (S.table table.new).shape ≡ 64 }
    ensures pages { page_limit (S.table table.new).shape ≡ 2 ^ 45 }
{
    if table.meets(1, first, Order::K4) {
        return None;
    }
    Some(table.insert(Leaf {
        space: 1,
        first,
        order: Order::K4,
        frame: 7,
        perm: Perm {
            r: true,
            w: false,
            x: false,
            u: true,
        },
    }))
}

/// The loads of a walk for a page of space 1.
fn loads_of<S: Structure>(table: &mut S, page: u64) -> u64
    requires small { page < 100 }
    requires spaces { spaces_of (S.table table.old).shape ≡ 64 }
    requires pages { page_limit (S.table table.old).shape ≡ 2 ^ 45 }
    ensures spaces { spaces_of (S.table table.new).shape ≡ 64 }
    ensures pages { page_limit (S.table table.new).shape ≡ 2 ^ 45 }
{
    let before = table.loads();
    let _walk = table.walk(1, page);
    table.loads().wrapping_sub(before)
}

/// One load is for the bucket, and one for each leaf up to the one that is sought, newest first. An
/// absent page is sought in the chain of each order, which here are one.
#[test]
fn the_plain_table_reads_up_to_its_leaf_and_refuses_where_it_is_full(
    rt: HostRuntime,
) -> Result<(), Fail> {
    let mut table = ListTable::open(rt.alloc(), 1, 2)?;
    assert!(rt; matches!(added(&mut table, 30), Some(Ok(work)) if is_none(work)));
    assert!(rt; matches!(added(&mut table, 10), Some(Ok(work)) if is_none(work)));
    assert!(rt; added(&mut table, 10).is_none());
    let Some(Err(refused)) = added(&mut table, 40) else {
        return Err("no refusal".into());
    };
    assert!(rt; matches!(refused.why, NoRoom::NoTable) && is_none(refused.work));
    assert_eq!(rt;
        (loads_of(&mut table, 10), loads_of(&mut table, 40)),
        (2, 9)
    );
    Ok(())
}

/// Tags of pages of 4 KiB of space 1 begin at 2^45, and the word is that of frame 7, which a user
/// may read.
#[test]
fn the_words_of_a_hashed_table_are_searched(rt: HostRuntime) -> Result<(), Fail> {
    let mut table = Hashed::open(rt.alloc(), 4, 8)?;
    assert!(rt; matches!(added(&mut table, 30), Some(Ok(work)) if is_none(work)));
    let mut chains = table.into_table();
    let (shape, tag) = (chains.shape(), (1 << 45) + 30);
    let found = seek(&mut chains, shape, tag);
    let entry = chains.find(tag).ok_or("no entry")?;
    assert!(rt; matches!(found, Seek::Found { entry: at, value: 0x1cd3 } if at == entry));
    assert!(rt; matches!(seek(&mut chains, shape, 30), Seek::Absent));
    Ok(())
}
