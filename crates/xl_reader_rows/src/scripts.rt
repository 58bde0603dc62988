//! Lines of a script.

ghost use Rattle.std.specs.Prelude.{◌≡◌, codes, Some, Ok, Err};
ghost use Rattle.xl_model.specs.declared.address.Order.TheVariants as order;
ghost use Rattle.xl_model.specs.declared.event.Scope.TheVariants as scope;
ghost use Rattle.xl_model.specs.declared.script.Command.TheVariants as command;
ghost use Rattle.xl_script.specs.Plain.{plain_said};
ghost use Rattle.xl_script.specs.Texts.{words_of};
ghost use Rattle.xl_reader_rows.specs.Scripts.{Reads, Refuses, perm_r__u, perm___xu, page_area};

/// Spaces are from 0 to 65,535, without a sign or a leading zero.
#[tactic(auto, unfolding(crate::specs::Computing::reading))]
pub fn spaces()
    ensures least { Reads (codes "space 0") (command.Space 0) }
    ensures most { Reads (codes "space 65535") (command.Space 65535) }
    ensures above { Refuses (codes "space 65536") 3 }
    ensures zeros { Refuses (codes "space 00") 3 }
    ensures sign { Refuses (codes "space +1") 3 }
{}

/// Counts are from 1 to 1,048,576.
#[tactic(auto, unfolding(crate::specs::Computing::reading))]
pub fn counts()
    ensures below { Refuses (codes "map 0 0 4k r--u 0") 3 }
    ensures least { Reads (codes "map 0 0 4k r--u 1") (command.Map 0 0 order.K4 perm_r__u 1) }
    ensures none { Reads (codes "map 0 0 4k r--u") (command.Map 0 0 order.K4 perm_r__u 1) }
    ensures most { Reads (codes "map 0 0 4k r--u 1048576")
        (command.Map 0 0 order.K4 perm_r__u 1048576) }
    ensures above { Refuses (codes "map 0 0 4k r--u 1048577") 3 }
{}

/// A run is of from 1 to 4,294,967,295 records, or of all that are left.
#[tactic(auto, unfolding(crate::specs::Computing::reading))]
pub fn runs()
    ensures below { Refuses (codes "run 0") 3 }
    ensures least { Reads (codes "run 1") (command.Run 1) }
    ensures most { Reads (codes "run 4294967295") (command.Run 4294967295) }
    ensures above { Refuses (codes "run 4294967296") 3 }
    ensures rest { Reads (codes "run rest") (command.RunRest) }
{}

/// An area has from 1 to 2^45 pages.
#[tactic(auto, unfolding(crate::specs::Computing::reading))]
pub fn pages_of_areas()
    ensures below { Refuses (codes "demand 0 0 0 4k r--u") 3 }
    ensures least { Reads (codes "demand 0 0 1 4k r--u") (command.Demand (page_area 0 1 order.K4)) }
    ensures most { Reads (codes "demand 0 0 35184372088832 4k r--u")
        (command.Demand (page_area 0 35184372088832 order.K4)) }
    ensures above { Refuses (codes "demand 0 0 35184372088833 4k r--u") 3 }
{}

/// An area begins at a multiple of its pages' size, and has a whole number of them.
#[tactic(auto, unfolding(crate::specs::Computing::reading))]
pub fn whole_areas()
    ensures whole { Reads (codes "demand 0 200000 512 2m r--u")
        (command.Demand (page_area 512 512 order.M2)) }
    ensures longer { Refuses (codes "demand 0 200000 513 2m r--u") 6 }
    ensures elsewhere { Refuses (codes "demand 0 1000 512 2m r--u") 6 }
{}

/// A script declares at most 256 areas.
#[tactic(auto, unfolding(crate::specs::Computing::reading))]
pub fn areas()
    ensures most { plain_said 255 (words_of (codes "demand 0 0 1 4k r--u"))
        ≡ Ok (256, Some (command.Demand (page_area 0 1 order.K4))) }
    ensures above { plain_said 256 (words_of (codes "demand 0 0 1 4k r--u")) ≡ Err 7 }
{}

/// A block may end at the last address of 64 bits, and none behind it.
#[tactic(auto, unfolding(crate::specs::Computing::reading))]
pub fn the_last_block()
    ensures last { Reads (codes "map 0 fffffffffffff000 4k r--u")
        (command.Map 0 18446744073709547520 order.K4 perm_r__u 1) }
    ensures following { Refuses (codes "map 0 fffffffffffff000 4k r--u 2") 6 }
    ensures moved { Refuses (codes "move 0 0 fffffffffffff000 4k 2") 6 }
{}

/// An address is of 1 to 16 hexadecimal digits of either case, with or without `0x`.
#[tactic(auto, unfolding(crate::specs::Computing::reading))]
pub fn addresses()
    ensures plain { Reads (codes "fence addr aB") (command.Fence (scope.Addr 171)) }
    ensures prefix { Reads (codes "fence addr 0x10") (command.Fence (scope.Addr 16)) }
    ensures capital { Refuses (codes "fence addr 0X10") 3 }
    ensures alone { Refuses (codes "fence addr 0x") 3 }
    ensures most { Reads (codes "fence addr 0xffffffffffffffff")
        (command.Fence (scope.Addr 18446744073709551615)) }
    ensures above { Refuses (codes "fence addr 00000000000000001") 3 }
{}

/// Sizes and permissions. No page may be written that may not be read.
#[tactic(auto, unfolding(crate::specs::Computing::reading))]
pub fn sizes_and_permissions()
    ensures size { Refuses (codes "map 0 0 8k r--u") 4 }
    ensures execute { Reads (codes "map 0 40000000 1g --xu")
        (command.Map 0 1073741824 order.G1 perm___xu 1) }
    ensures write { Refuses (codes "map 0 0 4k -w-u") 5 }
    ensures nothing { Refuses (codes "map 0 0 4k ---u") 5 }
    ensures longer { Refuses (codes "map 0 0 4k r--u-") 5 }
{}

/// Words are counted before they are read; a first word that names no line comes before all.
#[tactic(auto, unfolding(crate::specs::Computing::reading))]
pub fn words()
    ensures first { Refuses (codes "mop 0") 1 }
    ensures few { Refuses (codes "map 0 0 4k") 2 }
    ensures many { Refuses (codes "space 0 0") 2 }
    ensures fence { Refuses (codes "fence") 2 }
    ensures nowhere { Refuses (codes "fence nowhere 1 2") 1 }
{}

/// A comment begins at the line's beginning or after a blank; one carriage return at the end is
/// dropped.
#[tactic(auto, unfolding(crate::specs::Computing::reading))]
pub fn comments()
    ensures following { Reads (codes "space 1 # 2") (command.Space 1) }
    ensures within { Refuses (codes "space 1#") 3 }
    ensures blanks { Reads (codes " \t space\t1 ") (command.Space 1) }
    ensures carriage { Reads (codes "space 1\r\n") (command.Space 1) }
    ensures two { Refuses (codes "space 1\r\r\n") 3 }
{}
