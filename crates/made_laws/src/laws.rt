ghost use Rattle.made_laws.specs.Made.{MadeFilesHaveNoFault, MadeFilesHaveNoFileFault, MadeFilesSayPrograms};

/// No fault of a file holds of the files of 1 to 20,000 rounds: their headers, segments, symbols and
/// names can be read, a symbol begins thread 0, and no two symbols have one listed name. Nothing is said
/// of their code.
pub fn made_files_have_no_file_fault()
    ensures { MadeFilesHaveNoFileFault }
{}

/// The program that the files of up to 20,000 rounds say has the code at 401000 and 64 zero cells at
/// 800000, two threads that both begin with the code, and no listed call.
pub fn made_files_say_programs()
    ensures { MadeFilesSayPrograms }
{}

/// No fault holds of the files of 1 to 20,000 rounds: none of the file; none of its code, of which just
/// the instructions of the rounds are reached; and no instruction reads an undefined flag.
pub fn made_files_have_no_fault()
    ensures { MadeFilesHaveNoFault }
{}
