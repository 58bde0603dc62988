//! Memory where there is memory, of what the program doesn't open or opens smaller. The reports of
//! the greatest tables show it of all else.

use std::test::Fail;
use xl_frames::plain;
use xl_model::Order;
use xl_numbers::FreeNumbers;
use xl_recency::{Item, Sets};
use xl_stamped::Ways;

#[test]
fn the_greatest_pools_of_frames_and_numbers_are_to_be_had(rt: HostRuntime) -> Result<(), Fail> {
    let mut frames = plain::Frames::open(rt.alloc(), 1 << 22)?;
    assert_eq!(rt; frames.take(Order::G1), Some(0));
    let mut numbers = FreeNumbers::open(rt.alloc(), 1 << 18)?;
    assert_eq!(rt; (numbers.take(), numbers.take()), (Some(0), Some(1)));
    Ok(())
}

/// Stamps that end are given anew: the two items here get stamps 1 and 2, and the third one stamp
/// 3.
#[test]
fn lists_of_both_forms_are_to_be_had(rt: HostRuntime) -> Result<(), Fail> {
    let [one, two, three] = [1, 2, 3].map(|tag| Item { tag, word: 0 });
    let mut stamps = Ways::<2>::open_at(rt.alloc(), u64::MAX - 1)?;
    assert!(rt; stamps.fill(one).is_none() && stamps.fill(two).is_none());
    assert!(rt; matches!(stamps.fill(three), Some(Item { tag: 1, word: 0 })));
    let mut sets = Sets::<2>::open(rt.alloc(), 3)?;
    assert!(rt; sets.fill(0, one).is_none() && sets.fill(2, one).is_none());
    let touched = sets.touch(2, 1);
    assert!(rt; matches!(touched, Some(Item { tag: 1, word: 0 })));
    Ok(())
}
