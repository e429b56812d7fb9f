//! Laws of a script without its wrong lines, on functions that do nothing.
ghost use Rattle.script_refusals.specs.Asking.{CleanedIsRight, FirstRefusalIsTheFault, RightLinesAreKept, RightScriptsStay, RowsAreAList};

/// Without its wrong lines a script is read: it is refused for nothing but want of memory.
pub fn cleaned_is_right()
    ensures { CleanedIsRight }
{}

/// It asks for what the right lines ask for, in order and under the numbers of their lines.
pub fn right_lines_are_kept()
    ensures { RightLinesAreKept }
{}

/// A script that is read as it stands keeps each of its bytes, and has no refusal.
pub fn right_scripts_stay()
    ensures { RightScriptsStay }
{}

/// The fault for which a script is refused as it stands is the first refusal.
pub fn first_refusal_is_the_fault()
    ensures { FirstRefusalIsTheFault }
{}

/// What is refused of a script is put as a list, which is known for one.
pub fn rows_are_a_list()
    ensures { RowsAreAList }
{}
