// Resource managers.
ghost use Rattle.std.specs.Prelude.{◌≡◌, IfOk};
ghost use Rattle.ktm_world.specs.declared.command.Command.TheVariants.{CloseHandle, CreateResourceManager, DuplicateHandle, Exit, GetNotificationResourceManager, OpenResourceManager, RecoverResourceManager};
ghost use Rattle.ktm_world.specs.declared.reply.Reply.TheVariants.{Done, Guid};
ghost use Rattle.wattorju.specs.Calls.{IsBinding, IsCalled, IsCompleted, answer_of, own, reply_of};
ghost use Rattle.wattorju.specs.Told.{reply_of_notification};

use crate::law::law_of_guid;
use crate::machine::OWN;
use crate::{CompletionFault, Failure, Machine, Notification, ResourceManager};
use ktm_base::Disk;
use ktm_world::{Command, Completion, Durability};
use uuid::Uuid;

impl<D: Disk> Machine<D> {
    /// Makes a resource manager, and tells its GUID.
    pub fn create_resource_manager(
        &mut self,
        durability: Durability,
    ) -> Result<(ResourceManager, Uuid), Failure>
        ensures { IsBinding (λ label. CreateResourceManager label durability) self.old self.new (answer_of result (λ made. Guid made.1)) (λ label. IfOk result (λ made. made.0.label ≡ label)) }
    {
        let label = self.free_label();
        match self.make(label, Command::CreateResourceManager { label, durability }) {
            Ok(guid) => Ok((ResourceManager { label }, guid)),
            Err(failure) => Err(failure),
        }
    }

    /// Opens the resource manager with this GUID.
    pub fn open_resource_manager(&mut self, guid: Uuid) -> Result<ResourceManager, Failure>
        ensures { IsBinding (λ label. OpenResourceManager label guid) self.old self.new (answer_of result (λ made. Done)) (λ label. IfOk result (λ made. made.label ≡ label)) }
    {
        law_of_guid(&guid);
        let label = self.free_label();
        match self.bind(label, Command::OpenResourceManager { label, guid }) {
            Ok(()) => Ok(ResourceManager { label }),
            Err(failure) => Err(failure),
        }
    }

    /// Asks to be told of each enlistment that a restart brought back.
    pub fn recover_resource_manager(
        &mut self,
        resource_manager: &ResourceManager,
    ) -> Result<(), Failure>
        ensures { IsCalled (RecoverResourceManager resource_manager.now.label) self.old self.new (answer_of result (λ done. Done)) }
    {
        self.done(Command::RecoverResourceManager {
            manager: resource_manager.label,
        })
    }

    /// Takes the first notification that waits for a resource manager, if one waits.
    pub fn next_notification(
        &mut self,
        resource_manager: &ResourceManager,
    ) -> Result<Option<Notification>, CompletionFault>
        ensures { IsCompleted (GetNotificationResourceManager resource_manager.now.label) self.old self.new (reply_of result reply_of_notification) }
    {
        self.notification(Completion::GetNotificationResourceManager(resource_manager.label))
    }

    /// Opens a resource manager once more.
    pub fn duplicate_resource_manager(
        &mut self,
        resource_manager: &ResourceManager,
    ) -> Result<ResourceManager, Failure>
        ensures { IsBinding (λ label. DuplicateHandle label own resource_manager.now.label) self.old self.new (answer_of result (λ made. Done)) (λ label. IfOk result (λ made. made.label ≡ label)) }
    {
        let label = self.free_label();
        match self.bind(
            label,
            Command::DuplicateHandle {
                label,
                process: OWN,
                source: resource_manager.label,
            },
        ) {
            Ok(()) => Ok(ResourceManager { label }),
            Err(failure) => Err(failure),
        }
    }

    /// Closes a resource manager that is open.
    pub fn close_resource_manager(
        &mut self,
        resource_manager: ResourceManager,
    ) -> Result<(), CompletionFault>
        ensures { IsCompleted (CloseHandle resource_manager.label) self.old self.new (reply_of result (λ done. Done)) }
    {
        let ResourceManager { label } = resource_manager;
        self.end(Completion::CloseHandle(label))
    }

    /// Closes all that is open, as CloseHandle does, in the order of the labels. What is still held of it is no longer valid.
    pub fn close_all(&mut self) -> Result<(), CompletionFault>
        ensures { IsCompleted Exit self.old self.new (reply_of result (λ done. Done)) }
    {
        self.end(Completion::Exit)
    }
}
