// No limit is passed.
ghost use Rattle.ktm_limits.specs.LimitsKept.{LimitsLaw};

use ktm_owned::law_of_files_kept;
use ktm_records::law_of_agreement;
use txf_laws::{law_of_forms, law_of_lists};

/// No command and no passing of time passes a limit, in what is so now or in what is recorded.
pub fn law_of_limits()
    ensures { LimitsLaw }
{
    law_of_lists();
    law_of_forms();
    law_of_files_kept();
    law_of_agreement();
}
