ghost use Rattle.transfer_words.specs.Spoken.{WordsAreHeard, WordsAreShort};

/// What is said in a session is read as the chunk that was said, and says the same word.
pub fn words_are_heard()
    ensures { WordsAreHeard }
{}

/// What is said is at most 300 bytes longer than the data in it.
pub fn words_are_short()
    ensures { WordsAreShort }
{}
