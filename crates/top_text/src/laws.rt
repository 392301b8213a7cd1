ghost use Rattle.top_text.specs.Again.{TopsAgain};
ghost use Rattle.top_text.specs.Once.{TopsOnce};

/// Each canonical text is the text of one wiring.
pub fn texts_are_of_one()
    ensures { TopsOnce }
{}

/// The canonical text of a wiring is read back as that wiring.
pub fn texts_are_read_back()
    ensures { TopsAgain }
{}
