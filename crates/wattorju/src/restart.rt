// The machine once the power is back.
ghost use Rattle.std.specs.Prelude.{◌≡◌, IfOk, false};
ghost use Rattle.ktm_kernel.specs.Answers.{IsOfRestart};
ghost use Rattle.wattorju.specs.Restarts.{IsRestarted, answer_of_restart};

use crate::Machine;
use ktm_base::{Down, NoMemory, PowerDisk, Refusal};
use ktm_kernel::{OpenFault, law_of_power};
use ktm_world::Reply;

/// What a machine found that started again.
#[derive(Clone, Copy, Debug, PartialEq, Eq)]
pub struct Found {
    /// How many events its image had.
    pub events: u64,
    /// How many transactions are in doubt: each waits for its superior, and holds what it changed and set.
    pub in_doubt: u32,
}

// What the reply of a restart says.
fn to_found(answer: Result<Reply, NoMemory>) -> Result<Found, OpenFault>
    requires { IfOk answer IsOfRestart }
    ensures { answer_of_restart result ≡ answer }
{
    let reply = match answer {
        Ok(reply) => reply,
        Err(NoMemory) => return Err(OpenFault::NoMemory),
    };
    match reply {
        Reply::Restarted { events, in_doubt } => Ok(Found { events, in_doubt }),
        Reply::BadImage(offset) => Err(OpenFault::BadImage(offset)),
        Reply::Refused(Refusal::ImageWorn) => Err(OpenFault::Worn),
        Reply::Refused(Refusal::MachineDown) => Err(OpenFault::Down),
        _ => unreachable!(),
    }
}

impl<D: PowerDisk> Machine<D> {
    /// Gives the power back to the disk of a machine that is down, and starts it again from there. What was written and not
    /// synced when the power went holds bytes that the number chooses. All that was open is no longer valid. After an error the
    /// machine is down, and this can be called again.
    pub fn restart(&mut self, pick: u64) -> Result<Found, OpenFault>
        requires off { self.old.it.now.machine.is_up ≡ false }
        ensures { IsRestarted pick self.old self.new (answer_of_restart result) }
    {
        law_of_power();
        if let Err(NoMemory) = self.disk.plan_room(self.alloc) {
            return Err(OpenFault::NoMemory);
        }
        if let Err(Down) = self.disk.power(pick) {
            return Err(OpenFault::Down);
        }
        to_found(self.kernel.start_again(&mut self.disk))
    }
}
