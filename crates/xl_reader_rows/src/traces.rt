//! Lines of a trace.

ghost use Rattle.std.specs.Prelude.{◌≡◌, [], ◌∷◌, codes};
ghost use Rattle.xl_model.specs.declared.address.Kind.TheVariants.{Load, Store};
ghost use Rattle.xl_lackey.specs.declared.reference.Letter.TheVariants as letter;
ghost use Rattle.xl_lackey.specs.Accesses.{accesses_at, places};
ghost use Rattle.xl_reader_rows.specs.Traces.{Reads, Skips, Refuses, with_blanks, long_remark};

/// Each letter, and one that is none.
#[tactic(auto, unfolding(crate::specs::Computing::reading))]
pub fn letters()
    ensures fetch { Reads (codes "I  0,4") letter.I 0 4 }
    ensures load { Reads (codes " L 0,1") letter.L 0 1 }
    ensures store { Reads (codes " S 0,1") letter.S 0 1 }
    ensures modify { Reads (codes " M 0,1") letter.M 0 1 }
    ensures none { Refuses (codes " X 0,1") 1 }
{}

/// Blanks are spaces and tabs, and one follows the letter.
#[tactic(auto, unfolding(crate::specs::Computing::reading))]
pub fn blanks()
    ensures tabs { Reads (codes "\tL\t\t0,1\t") letter.L 0 1 }
    ensures none { Refuses (codes "L0,1") 2 }
    ensures feed { Refuses (12 ∷ codes "L 0,1") 1 }
    ensures comma { Refuses (codes " L 0 ,1") 2 }
    ensures size { Refuses (codes " L 0, 1") 3 }
{}

/// An address has from 1 to 16 hexadecimal digits.
#[tactic(auto, unfolding(crate::specs::Computing::reading))]
pub fn addresses()
    ensures none { Refuses (codes " L ,1") 2 }
    ensures most { Reads (codes " L 00000000000000aB,1") letter.L 171 1 }
    ensures above { Refuses (codes " L 00000000000000001,1") 2 }
    ensures other { Refuses (codes " L g,1") 2 }
{}

/// A size is at most 65,536, and has from 1 to 6 digits.
#[tactic(auto, unfolding(crate::specs::Computing::reading))]
pub fn sizes()
    ensures none { Refuses (codes " L 0,") 3 }
    ensures least { Reads (codes " L 0,0") letter.L 0 0 }
    ensures most { Reads (codes " L 0,65536") letter.L 0 65536 }
    ensures above { Refuses (codes " L 0,65537") 3 }
    ensures six { Reads (codes " L 0,000001") letter.L 0 1 }
    ensures seven { Refuses (codes " L 0,0000001") 3 }
{}

/// A record may touch the last byte of all, and none behind it.
#[tactic(auto, unfolding(crate::specs::Computing::reading))]
pub fn the_last_byte()
    ensures last { Reads (codes " L ffffffffffffffff,1") letter.L 18446744073709551615 1 }
    ensures empty { Reads (codes " L ffffffffffffffff,0") letter.L 18446744073709551615 0 }
    ensures following { Refuses (codes " L ffffffffffffffff,2") 5 }
    ensures first { Refuses (codes " L ffffffffffffffff,2 x") 4 }
{}

/// Lines that are skipped.
#[tactic(auto, unfolding(crate::specs::Computing::reading))]
pub fn remarks()
    ensures equals { Skips (codes "==1") }
    ensures block { Skips (codes "SB 0") }
    ensures letter { Refuses (codes "SBx") 2 }
    ensures blank { Refuses (codes " SB 0") 2 }
    ensures comment { Skips (codes " # x") }
{}

/// A record ends at the line's end or at a comment.
#[tactic(auto, unfolding(crate::specs::Computing::reading))]
pub fn ends()
    ensures comment { Reads (codes " L 0,1#x") letter.L 0 1 }
    ensures word { Refuses (codes " L 0,1 x") 4 }
    ensures carriage { Reads (codes " L 0,1\r\n") letter.L 0 1 }
    ensures two { Refuses (codes " L 0,1\r\r\n") 4 }
{}

/// A line has at most 256 bytes, unless its first bytes skip it.
#[tactic(auto, unfolding(crate::specs::Computing::reading))]
pub fn long_lines()
    ensures most { Reads (with_blanks 251) letter.S 2 2 }
    ensures above { Refuses (with_blanks 252) 6 }
    ensures remark { Skips (long_remark 300) }
{}

/// A record has an access in each page that it touches; a modify loads them all, and then stores
/// them.
#[tactic(auto, unfolding(crate::specs::Computing::reading))]
pub fn accesses()
    ensures one { accesses_at letter.L (places 4095 1) ≡ (4095, Load) ∷ [] }
    ensures none { accesses_at letter.L (places 4096 0) ≡ (4096, Load) ∷ [] }
    ensures two { accesses_at letter.L (places 4095 2) ≡ (4095, Load) ∷ (4096, Load) ∷ [] }
    ensures modify { accesses_at letter.M (places 4095 2)
        ≡ (4095, Load) ∷ (4096, Load) ∷ (4095, Store) ∷ (4096, Store) ∷ [] }
{}
