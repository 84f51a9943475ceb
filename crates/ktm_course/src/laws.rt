// What is recorded where contents stand on pages, as the contract of a function that does nothing.
ghost use Rattle.ktm_course.specs.OnPages.{RecordedLaw};

/// What steps record of a transaction whose contents are recorded by their pages is what they record of it in the model, with
/// the pages in the place of the contents. It takes as many bytes of a log as are counted for the contents.
pub fn law_of_pages()
    ensures { RecordedLaw }
{}
