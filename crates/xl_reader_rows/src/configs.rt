//! Keys of a configuration: each at, below and above its limits.

ghost use Rattle.std.specs.Prelude.{◌≡◌, [], ◌∷◌, ◌++◌, codes, replicate, None, Some};
ghost use Rattle.xl_reader_rows.specs.Configs.{array_keys, array_of_order, array_of_orders, at_level, broken_at, broken_by, broken_in_array, broken_with, capped_at, clustered_row, cuckoo_row, hashed_row, of_size, radix_row, range_row, row_with_arrays, rows_named, six_arrays, sixteen_names, with_serves};

/// From 1 to 4,194,304 data frames.
#[tactic(auto, unfolding(crate::specs::Computing::reading))]
pub fn frames()
    ensures below { broken_at radix_row (codes "frames") 0 ≡ Some (3, 3) }
    ensures least { broken_at radix_row (codes "frames") 1 ≡ None }
    ensures most { broken_at radix_row (codes "frames") 4194304 ≡ None }
    ensures above { broken_at radix_row (codes "frames") 4194305 ≡ Some (3, 3) }
{}

/// From 1 to 64 spaces. A radix table of as many frames has room for their roots.
#[tactic(auto, unfolding(crate::specs::Computing::reading))]
pub fn spaces()
    ensures below { broken_at radix_row (codes "spaces") 0 ≡ Some (4, 3) }
    ensures least { broken_at radix_row (codes "spaces") 1 ≡ None }
    ensures most { broken_at radix_row (codes "spaces") 64 ≡ None }
    ensures above { broken_at radix_row (codes "spaces") 65 ≡ Some (4, 3) }
{}

/// A radix table has from as many frames as the row has spaces, which are two, to 16,384.
#[tactic(auto, unfolding(crate::specs::Computing::reading))]
pub fn table_frames()
    ensures below { broken_at radix_row (codes "table_frames") 1 ≡ Some (7, 3) }
    ensures least { broken_at radix_row (codes "table_frames") 2 ≡ None }
    ensures most { broken_at radix_row (codes "table_frames") 16384 ≡ None }
    ensures above { broken_at radix_row (codes "table_frames") 16385 ≡ Some (7, 3) }
{}

/// From 1 to 1,048,576 buckets.
#[tactic(auto, unfolding(crate::specs::Computing::reading))]
pub fn buckets()
    ensures below { broken_at hashed_row (codes "buckets") 0 ≡ Some (9, 3) }
    ensures least { broken_at hashed_row (codes "buckets") 1 ≡ None }
    ensures most { broken_at hashed_row (codes "buckets") 1048576 ≡ None }
    ensures above { broken_at hashed_row (codes "buckets") 1048577 ≡ Some (9, 3) }
{}

/// The same of a clustered table.
#[tactic(auto, unfolding(crate::specs::Computing::reading))]
pub fn buckets_of_blocks()
    ensures below { broken_at clustered_row (codes "buckets") 0 ≡ Some (9, 3) }
    ensures least { broken_at clustered_row (codes "buckets") 1 ≡ None }
    ensures most { broken_at clustered_row (codes "buckets") 1048576 ≡ None }
    ensures above { broken_at clustered_row (codes "buckets") 1048577 ≡ Some (9, 3) }
{}

/// From 1 to 1,048,576 entries.
#[tactic(auto, unfolding(crate::specs::Computing::reading))]
pub fn entries()
    ensures below { broken_at hashed_row (codes "entries") 0 ≡ Some (10, 3) }
    ensures least { broken_at hashed_row (codes "entries") 1 ≡ None }
    ensures most { broken_at hashed_row (codes "entries") 1048576 ≡ None }
    ensures above { broken_at hashed_row (codes "entries") 1048577 ≡ Some (10, 3) }
{}

/// From 1 to 131,072 blocks.
#[tactic(auto, unfolding(crate::specs::Computing::reading))]
pub fn blocks()
    ensures below { broken_at clustered_row (codes "blocks") 0 ≡ Some (11, 3) }
    ensures least { broken_at clustered_row (codes "blocks") 1 ≡ None }
    ensures most { broken_at clustered_row (codes "blocks") 131072 ≡ None }
    ensures above { broken_at clustered_row (codes "blocks") 131073 ≡ Some (11, 3) }
{}

/// From 2 to 4 ways.
#[tactic(auto, unfolding(crate::specs::Computing::reading))]
pub fn ways()
    ensures below { broken_at cuckoo_row (codes "ways") 1 ≡ Some (12, 3) }
    ensures least { broken_at cuckoo_row (codes "ways") 2 ≡ None }
    ensures most { broken_at cuckoo_row (codes "ways") 4 ≡ None }
    ensures above { broken_at cuckoo_row (codes "ways") 5 ≡ Some (12, 3) }
{}

/// Ways begin with from 2^0 to 2^18 slots.
#[tactic(auto, unfolding(crate::specs::Computing::reading))]
pub fn start_bits()
    ensures least { broken_at cuckoo_row (codes "start_bits") 0 ≡ None }
    ensures most { broken_at (capped_at 18) (codes "start_bits") 18 ≡ None }
    ensures above { broken_at (capped_at 18) (codes "start_bits") 19 ≡ Some (13, 3) }
{}

/// Ways grow to from as many slots as they begin with, which are 2^7, to 2^18.
#[tactic(auto, unfolding(crate::specs::Computing::reading))]
pub fn cap_bits()
    ensures below { broken_at cuckoo_row (codes "cap_bits") 6 ≡ Some (14, 3) }
    ensures least { broken_at cuckoo_row (codes "cap_bits") 7 ≡ None }
    ensures most { broken_at cuckoo_row (codes "cap_bits") 18 ≡ None }
    ensures above { broken_at cuckoo_row (codes "cap_bits") 19 ≡ Some (14, 3) }
{}

/// A threshold is from 1 to 100.
#[tactic(auto, unfolding(crate::specs::Computing::reading))]
pub fn threshold()
    ensures below { broken_at cuckoo_row (codes "threshold") 0 ≡ Some (15, 3) }
    ensures least { broken_at cuckoo_row (codes "threshold") 1 ≡ None }
    ensures most { broken_at cuckoo_row (codes "threshold") 100 ≡ None }
    ensures above { broken_at cuckoo_row (codes "threshold") 101 ≡ Some (15, 3) }
{}

/// From 1 to 64 displacements.
#[tactic(auto, unfolding(crate::specs::Computing::reading))]
pub fn kick_limit()
    ensures below { broken_at cuckoo_row (codes "kick_limit") 0 ≡ Some (16, 3) }
    ensures least { broken_at cuckoo_row (codes "kick_limit") 1 ≡ None }
    ensures most { broken_at cuckoo_row (codes "kick_limit") 64 ≡ None }
    ensures above { broken_at cuckoo_row (codes "kick_limit") 65 ≡ Some (16, 3) }
{}

/// From 1 to 64 slots migrate.
#[tactic(auto, unfolding(crate::specs::Computing::reading))]
pub fn migrate()
    ensures below { broken_at cuckoo_row (codes "migrate") 0 ≡ Some (17, 3) }
    ensures least { broken_at cuckoo_row (codes "migrate") 1 ≡ None }
    ensures most { broken_at cuckoo_row (codes "migrate") 64 ≡ None }
    ensures above { broken_at cuckoo_row (codes "migrate") 65 ≡ Some (17, 3) }
{}

/// From 1 to 262,144 sections of 2 MiB.
#[tactic(auto, unfolding(crate::specs::Computing::reading))]
pub fn sections_2m()
    ensures below { broken_at cuckoo_row (codes "sections_2m") 0 ≡ Some (18, 3) }
    ensures least { broken_at cuckoo_row (codes "sections_2m") 1 ≡ None }
    ensures most { broken_at cuckoo_row (codes "sections_2m") 262144 ≡ None }
    ensures above { broken_at cuckoo_row (codes "sections_2m") 262145 ≡ Some (18, 3) }
{}

/// From 1 to 4,096 sections of 1 GiB.
#[tactic(auto, unfolding(crate::specs::Computing::reading))]
pub fn sections_1g()
    ensures below { broken_at cuckoo_row (codes "sections_1g") 0 ≡ Some (19, 3) }
    ensures least { broken_at cuckoo_row (codes "sections_1g") 1 ≡ None }
    ensures most { broken_at cuckoo_row (codes "sections_1g") 4096 ≡ None }
    ensures above { broken_at cuckoo_row (codes "sections_1g") 4097 ≡ Some (19, 3) }
{}

/// From 1 to 65,536 ranges.
#[tactic(auto, unfolding(crate::specs::Computing::reading))]
pub fn ranges()
    ensures below { broken_at range_row (codes "ranges") 0 ≡ Some (20, 3) }
    ensures least { broken_at range_row (codes "ranges") 1 ≡ None }
    ensures most { broken_at range_row (codes "ranges") 65536 ≡ None }
    ensures above { broken_at range_row (codes "ranges") 65537 ≡ Some (20, 3) }
{}

/// Levels are from 1 to 3, begin at 1, and rise by one.
#[tactic(auto, unfolding(crate::specs::Computing::reading))]
pub fn level()
    ensures below { broken_in_array (codes "level") 0 ≡ Some (22, 3) }
    ensures least { broken_in_array (codes "level") 1 ≡ None }
    ensures begins { broken_in_array (codes "level") 2 ≡ Some (22, 5) }
    ensures most { broken_with (array_keys ∷ at_level 2 ∷ at_level 3 ∷ []) ≡ None }
    ensures skips { broken_with (array_keys ∷ at_level 3 ∷ []) ≡ Some (22, 5) }
    ensures above { broken_in_array (codes "level") 4 ≡ Some (22, 3) }
{}

/// Levels that fall disagree.
#[tactic(auto, unfolding(crate::specs::Computing::reading))]
pub fn falling_levels()
    ensures is { broken_with (array_of_order 1 (codes "4k") ∷ array_of_order 2 (codes "4k")
        ∷ array_of_order 1 (codes "2m") ∷ []) ≡ Some (22, 5) }
{}

/// From 1 to 16,384 sets. The number of sets is read before what the array serves.
#[tactic(auto, unfolding(crate::specs::Computing::reading))]
pub fn sets()
    ensures below { broken_in_array (codes "sets") 0 ≡ Some (22, 3) }
    ensures least { broken_in_array (codes "sets") 1 ≡ None }
    ensures most { broken_with (of_size 16384 1 ∷ []) ≡ None }
    ensures above { broken_with (with_serves 3 (of_size 16385 1) ∷ []) ≡ Some (22, 3) }
    ensures serves { broken_with (with_serves 3 array_keys ∷ []) ≡ Some (22, 2) }
{}

/// At most 16,384 leaves: 6 times 2,731 is two more.
#[tactic(auto, unfolding(crate::specs::Computing::reading))]
pub fn leaves_of_an_array()
    ensures most { broken_in_array (codes "sets") 2048 ≡ None }
    ensures above { broken_with (of_size 2731 6 ∷ []) ≡ Some (22, 3) }
{}

/// A width is one of nine.
#[tactic(auto, unfolding(crate::specs::Computing::reading))]
pub fn width()
    ensures none { broken_in_array (codes "width") 0 ≡ Some (22, 3) }
    ensures least { broken_in_array (codes "width") 1 ≡ None }
    ensures between { broken_in_array (codes "width") 3 ≡ Some (22, 3) }
    ensures twelve { broken_in_array (codes "width") 12 ≡ None }
    ensures most { broken_in_array (codes "width") 64 ≡ None }
    ensures above { broken_in_array (codes "width") 65 ≡ Some (22, 3) }
{}

/// An array has some order, and a row has at most six arrays.
#[tactic(auto, unfolding(crate::specs::Computing::reading))]
pub fn arrays()
    ensures no_order { broken_with (array_of_orders 1 [] ∷ []) ≡ Some (22, 3) }
    ensures six { broken_by (row_with_arrays six_arrays ∷ []) ≡ None }
    ensures seven { broken_with (six_arrays ++ array_of_order 3 (codes "4k") ∷ []) ≡ Some (22, 3) }
{}

/// A name has from 1 to 16 bytes.
#[tactic(auto, unfolding(crate::specs::Computing::reading))]
pub fn name()
    ensures below { broken_by (rows_named ([] ∷ [])) ≡ Some (1, 3) }
    ensures least { broken_by (rows_named (codes "a" ∷ [])) ≡ None }
    ensures most { broken_by (rows_named (replicate 16 97 ∷ [])) ≡ None }
    ensures above { broken_by (rows_named (replicate 17 97 ∷ [])) ≡ Some (1, 3) }
    ensures twice { broken_by (rows_named (codes "a" ∷ codes "a" ∷ [])) ≡ Some (1, 5) }
{}

/// From 1 to 16 rows.
#[tactic(auto, unfolding(crate::specs::Computing::reading))]
pub fn rows()
    ensures below { broken_by [] ≡ Some (0, 3) }
    ensures most { broken_by (rows_named sixteen_names) ≡ None }
    ensures above { broken_by (rows_named (codes "z" ∷ sixteen_names)) ≡ Some (0, 3) }
{}
