//! What holds of every pipe.
ghost use Rattle.desk_pipes.specs.Cutting.{PiecesDoNotMatter};

/// In whatever pieces the bytes of a pipe come, the lines are the same.
pub fn pieces_do_not_matter()
    ensures { PiecesDoNotMatter }
{}
