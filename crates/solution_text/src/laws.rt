ghost use Rattle.solution_text.specs.Again.{SolutionsAgain};
ghost use Rattle.solution_text.specs.Once.{SolutionsOnce};

/// Each canonical text is the text of one mapping.
pub fn texts_are_of_one()
    ensures { SolutionsOnce }
{}

/// The canonical text of a mapping is read back as that mapping.
pub fn texts_are_read_back()
    ensures { SolutionsAgain }
{}
