// The count of what failed.
ghost use Rattle.std.specs.Prelude.{◌≡◌};
ghost use Rattle.ktm_base.specs.Stream.{Faults};
ghost use Rattle.ktm_os.specs.Count.{answer_of, counted};

use ktm_base::Failed;
use std::io;

/// Answers with what the system did, and counts it where it failed.
pub fn count_failure<T: Drop>(done: io::Result<T>, faults: &mut u64) -> Result<T, Failed>
    ensures answer { result ≡ answer_of done }
    ensures counts { faults.new ≡ counted result faults.old }
    ensures faults { Faults faults.old faults.new result }
{
    match done {
        Ok(value) => Ok(value),
        Err(_) => {
            *faults = faults.saturating_add(1);
            Err(Failed)
        }
    }
}
