//! Laws of the grammar, on a function that does nothing.
ghost use Rattle.airimp_lines.specs.Grammar.{OneSegment};
ghost use Rattle.airimp_lines.specs.Script.{OneScript};

/// On one day of reference no line spells two segments, and no script has two lists of requests.
pub fn spellings_are_unique()
    ensures segment { OneSegment }
    ensures script { OneScript }
{}
