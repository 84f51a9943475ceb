// Calls on resource managers, once their labels are known.
ghost use Rattle.std.specs.Prelude.{◌≡◌, true};
ghost use Rattle.ktm_standing.specs.Standing.{IsStandingNow};
ghost use Rattle.ktm_memory.specs.Memory.{present_of};
ghost use Rattle.ktm_route.specs.Route.{Routes};
ghost use Rattle.ktm_world.specs.declared.command.Command.TheVariants.{CreateResourceManager, GetNotificationResourceManager, OpenResourceManager, RecoverResourceManager};

use crate::labels::{manager_named, manager_with_guid, object_at};
use ktm_base::{Label, Pid, Refusal};
use ktm_memory::{Labels, Memory, Routed};
use ktm_world::{Durability, Object};
use uuid::Uuid;

// CreateResourceManager, whose label is not bound.
pub(crate) fn to_make_manager(
    memory: &Memory,
    process: Pid,
    label: Label,
    durability: Durability,
) -> Result<Routed, Refusal>
    requires { memory.now.is_up ≡ true }
    ensures { Routes (present_of memory.now) process (CreateResourceManager label durability) result }
{
    if object_at(memory, process, label).is_some() {
        return Err(Refusal::InvalidParameter);
    }
    Ok(Routed::MakeManager { label, durability })
}

// OpenResourceManager, whose label is not bound, of a resource manager.
pub(crate) fn to_open_manager(
    memory: &Memory,
    process: Pid,
    label: Label,
    guid: &Uuid,
) -> Result<Routed, Refusal>
    requires up { memory.now.is_up ≡ true }
    requires standing { IsStandingNow (present_of memory.now) }
    ensures { Routes (present_of memory.now) process (OpenResourceManager label guid.now) result }
{
    if object_at(memory, process, label).is_some() {
        return Err(Refusal::InvalidParameter);
    }
    match manager_with_guid(memory, guid) {
        Some(id) => Ok(Routed::Handles(Labels::Bind {
            label,
            object: Object::Manager(id),
        })),
        None => Err(Refusal::ResourceManagerNotFound),
    }
}

// RecoverResourceManager, of a resource manager.
pub(crate) fn to_recover_manager(
    memory: &Memory,
    process: Pid,
    label: Label,
) -> Result<Routed, Refusal>
    requires { memory.now.is_up ≡ true }
    ensures { Routes (present_of memory.now) process (RecoverResourceManager label) result }
{
    match manager_named(memory, process, label) {
        Some(id) => Ok(Routed::Recover(id)),
        None => Err(Refusal::InvalidHandle),
    }
}

// GetNotificationResourceManager, of a resource manager.
pub(crate) fn to_take(memory: &Memory, process: Pid, label: Label) -> Result<Routed, Refusal>
    requires { memory.now.is_up ≡ true }
    ensures { Routes (present_of memory.now) process (GetNotificationResourceManager label) result }
{
    match manager_named(memory, process, label) {
        Some(id) => Ok(Routed::Take(id)),
        None => Err(Refusal::InvalidHandle),
    }
}
