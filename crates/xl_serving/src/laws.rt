//! What the account of the plain form is, in the words of the report. No function here does
//! anything: each is there for its clause.

ghost use Rattle.xl_serving.specs.Laws.{TheTextIsTheReport, AFaultEndsTheText};

/// Where no fault ends the input, the text of a run is the report.
pub fn the_text_is_the_report()
    ensures { TheTextIsTheReport }
{}

/// Where a fault ends the input, the text of a run is what was written before it.
pub fn a_fault_ends_the_text()
    ensures { AFaultEndsTheText }
{}
