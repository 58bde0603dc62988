//! Calls on texts that the program doesn't make.

use std::test::Fail;
use xl_made::MadeTrace;

/// The first two words of the generator are a15c02b7 and 7b47f409.
#[test]
fn the_first_records_are_made_in_pieces(rt: HostRuntime) -> Result<(), Fail> {
    let mut trace = MadeTrace::new(2);
    let mut text = Vec::new(rt.alloc());
    for _ in 0..3 {
        let mut piece = [0; 15];
        let count = trace.piece(&mut piece);
        text.extend_from_slice(&piece[..count])?;
    }
    assert_eq!(rt;
        text.as_slice(),
        b" M 100165c0,8\nI  10001478,4\n".as_slice()
    );
    Ok(())
}
