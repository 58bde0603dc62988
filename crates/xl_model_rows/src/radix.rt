//! Radix tables: nodes, walk caches and images.

ghost use Rattle.std.specs.Prelude.{◌≡◌, codes};
ghost use Rattle.xl_model.specs.Report.{report};
ghost use Rattle.xl_model_rows.specs.Plain.{rows_alone, with_images};
ghost use Rattle.xl_model_rows.specs.RadixRows.{no_node_left_rows, no_node_left_items, walk_caches_rows, walk_caches_items, a_walk_from_the_middle_rows, a_walk_from_the_middle_items, walk_caches_sv57_rows, walk_caches_sv57_items, nodes_used_up_rows, nodes_used_up_items, an_image_rows, an_image_items};

/// The only node is the root: a 4 KiB leaf has no nodes, a 1 GiB leaf needs none.
#[tactic(auto, unfolding(xl_model::specs::Computing::computing))]
pub fn no_node_left()
    ensures { report rows_alone no_node_left_rows no_node_left_items
        ≡ codes "a accesses=1 ok=1 unmapped=0 denied=0 notcanonical=0 accepted=1 refused=0,0,0,0,0,0,0,1,0 walks=1 reads=1 wchits=0 fills=0 kicks=0 undone=0 migrated=0 growths=0 fences=0 invalidated=0 pasum=0000000000001000 tlb=-\n" }
{}

/// Walks of 3, 1 and 1 loads, and two node tags that leave with their nodes.
#[tactic(auto, unfolding(xl_model::specs::Computing::computing))]
pub fn walk_caches()
    ensures { report rows_alone walk_caches_rows walk_caches_items
        ≡ codes "a accesses=3 ok=2 unmapped=1 denied=0 notcanonical=0 accepted=4 refused=0,0,0,0,0,0,0,0,0 walks=3 reads=5 wchits=1 fills=0 kicks=0 undone=0 migrated=0 growths=0 fences=0 invalidated=2 pasum=0000000000001000 tlb=-\n" }
{}

/// A walk that begins at the node of level 1.
#[tactic(auto, unfolding(xl_model::specs::Computing::computing))]
pub fn a_walk_from_the_middle()
    ensures { report rows_alone a_walk_from_the_middle_rows a_walk_from_the_middle_items
        ≡ codes "a accesses=2 ok=2 unmapped=0 denied=0 notcanonical=0 accepted=2 refused=0,0,0,0,0,0,0,0,0 walks=2 reads=6 wchits=1 fills=0 kicks=0 undone=0 migrated=0 growths=0 fences=0 invalidated=0 pasum=0000000000001000 tlb=-\n" }
{}

/// A walk that begins at the node of level 0, Sv57.
#[tactic(auto, unfolding(xl_model::specs::Computing::computing))]
pub fn walk_caches_sv57()
    ensures { report rows_alone walk_caches_sv57_rows walk_caches_sv57_items
        ≡ codes "a accesses=2 ok=2 unmapped=0 denied=0 notcanonical=0 accepted=2 refused=0,0,0,0,0,0,0,0,0 walks=2 reads=6 wchits=1 fills=0 kicks=0 undone=0 migrated=0 growths=0 fences=0 invalidated=0 pasum=0000000000001000 tlb=-\n" }
{}

/// Every node taken: a map and a move are refused, and leave nothing.
#[tactic(auto, unfolding(xl_model::specs::Computing::computing))]
pub fn nodes_used_up()
    ensures { report rows_alone nodes_used_up_rows nodes_used_up_items
        ≡ codes "a accesses=1 ok=1 unmapped=0 denied=0 notcanonical=0 accepted=3 refused=0,0,0,0,0,0,0,2,0 walks=1 reads=3 wchits=0 fills=0 kicks=0 undone=0 migrated=0 growths=0 fences=0 invalidated=0 pasum=0000000000000000 tlb=-\n" }
{}

/// The words of a root, a node of level 1 and a node of level 0.
#[tactic(auto, unfolding(xl_model::specs::Computing::computing))]
pub fn an_image()
    ensures { report with_images an_image_rows an_image_items
        ≡ codes "a accesses=0 ok=0 unmapped=0 denied=0 notcanonical=0 accepted=1 refused=0,0,0,0,0,0,0,0,0 walks=0 reads=0 wchits=0 fills=0 kicks=0 undone=0 migrated=0 growths=0 fences=0 invalidated=0 pasum=0000000000000000 tlb=-\nimage a 0 0 0000000000000801\nimage a 2 0 0000000000000c01\nimage a 3 1 00000000000000d3\n" }
{}
