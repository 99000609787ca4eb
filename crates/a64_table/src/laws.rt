ghost use Rattle.a64_table.specs.Laws.{RowsArePaths, RowsAreOpen};

/// The law of answers: what `row` answers for a word and the paths through the word's tree tell the same. It
/// computes nothing.
pub fn answers_are_paths()
    ensures { RowsArePaths }
{}

/// The law of values from outside: each of them shows in a word's items. It computes nothing.
pub fn rows_are_open()
    ensures { RowsAreOpen }
{}
