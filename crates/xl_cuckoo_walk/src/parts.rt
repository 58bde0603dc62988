//! The parts of a row.

use crate::cache::Sections;
use std::marker::Model;
use xl_cuckoo::Cuckoo;
use xl_sections::Counts;

/// A table for each order, and for the sections of 2 MiB and of 1 GiB how many leaves of each order
/// they hold, and a cache of sections.
#[derive(Drop)]
pub(crate) struct Parts<const D: usize> {
    pub(crate) k4: Cuckoo<D>,
    pub(crate) m2: Cuckoo<D>,
    pub(crate) g1: Cuckoo<D>,
    pub(crate) middle: Counts,
    pub(crate) large: Counts,
    pub(crate) middle_cache: Sections,
    pub(crate) large_cache: Sections,
}

impl<const D: usize> Model for Parts<D> {
    ghost use Rattle.xl_cuckoo_walk.specs.Parts.{RowParts, parts_by};

    ghost Value = { RowParts };

    ghost view = { λ p. parts_by p.k4 p.m2 p.g1 p.middle p.large p.middle_cache p.large_cache };
}
