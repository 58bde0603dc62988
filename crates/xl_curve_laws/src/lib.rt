//! The law on hit curves, for every row and every list of items. No function here does anything: it
//! is there for its clause.
#![tactic(auto)]

ghost use Rattle.xl_curve_laws.specs.CurveLaws.{TheCurveIsThatOfEachWidth};

/// The hits of a curve at a width are those that the row counts whose one array has that width,
/// over every list of items.
pub fn the_curve_is_that_of_each_width()
    ensures { TheCurveIsThatOfEachWidth }
{}
