// What transactions that are under way may still record.
ghost use Rattle.ktm_debts.specs.Debts.{DebtsLaw};

use ktm_records::law_of_file_calls;

/// What brings transactions to their outcomes takes no more of the log than their debts fall by. Only calls that may owe more raise
/// them, and never above what an empty log has room for.
pub fn law_of_debts()
    ensures { DebtsLaw }
{
    law_of_file_calls();
}
