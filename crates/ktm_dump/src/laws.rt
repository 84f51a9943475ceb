// What holds of the text, as contracts of functions that do nothing.
ghost use Rattle.ktm_dump.specs.Alike.{TextsAlike};
ghost use Rattle.ktm_dump.specs.Worked.{AreWrittenSo};

/// What the text of some states is: of one that just started, and of one with managers, transactions, directories, files and keys.
pub fn law_of_worked_texts()
    ensures { AreWrittenSo }
{}

/// The text of a state tells how many bytes a file has, and not which: that of the state over the places of bytes is that of the state of bytes.
pub fn law_of_texts()
    ensures { TextsAlike }
{}
