// What is recorded with pages comes to.
ghost use Rattle.ktm_paged.specs.Laws.{PagedLaw};
ghost use Rattle.ktm_paged.specs.Recorded.{RecordsLaw};

use txf_laws::law_of_good_states;

/// What is recorded with pages comes to what the model's events come to, over the places of bytes and over the bytes there; contents go
/// on to lie on the pages that there are, apart.
pub fn law_of_paged_records()
    ensures { PagedLaw }
{
    law_of_good_states();
}

/// What is recorded of a plain call, of a transaction's course and of other commands means their events, and applies where they do.
pub fn law_of_records()
    ensures { RecordsLaw }
{}
