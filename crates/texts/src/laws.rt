// What holds of every answer.
ghost use Rattle.texts.specs.Back.{ReadBack, NamesAreWords};

// An answer line, read back, is the plan.
pub fn read_back()
    ensures { ReadBack }
{}

// The names that a text says are words, so that the answers for its junctions can be read back.
pub fn names_are_words()
    ensures { NamesAreWords }
{}
