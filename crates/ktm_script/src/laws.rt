// Laws over the grammar of lines, each the contract of a function that does nothing.
ghost use Rattle.ktm_script.specs.WorkedLines.{AreSpelledSo, lines_of_the_machine, lines_of_transactions, lines_of_enlistments, lines_of_files, lines_of_keys_and_handles};

/// Worked rows of the grammar: what some lines of every form are, and how each is spelled.
pub fn law_of_worked_lines()
    ensures machine { AreSpelledSo lines_of_the_machine }
    ensures transactions { AreSpelledSo lines_of_transactions }
    ensures enlistments { AreSpelledSo lines_of_enlistments }
    ensures files { AreSpelledSo lines_of_files }
    ensures keys { AreSpelledSo lines_of_keys_and_handles }
{}
