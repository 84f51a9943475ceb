// The files in memory, as the calls ask for them.
ghost use Rattle.txf_volume.specs.Held.{files_of};

use crate::files::Files;
use crate::limits::lacks_handles;
use ktm_base::{Id, NoMemory, Refusal, TextList};
use ktm_content::PlacedRef;
use ktm_names::Pattern;
use std::alloc::Global;
use txf_calls::{Plan, Room, Seen, Volume};
use txf_opens::Act;
use txf_tree::listed_names;

impl Volume for Files {
    ghost files = { files_of };

    fn child(&self, who: Option<Id>, directory: u64, name: &[u8]) -> Option<Seen> {
        match self.overlay_for(who) {
            Some(overlay) => self.child_over(overlay, directory, name),
            None => self.committed_child(directory, name),
        }
    }

    fn has_entries(&self, who: Option<Id>, directory: u64) -> bool {
        match self.overlay_for(who) {
            Some(overlay) => overlay.has_entries(&self.tree, directory),
            None => self.tree.has_entries(directory),
        }
    }

    fn is_at_or_below(&self, who: Option<Id>, number: u64, other: u64) -> bool {
        match self.overlay_for(who) {
            Some(overlay) => overlay.is_at_or_below(&self.tree, number, other),
            None => self.tree.is_at_or_below(number, other),
        }
    }

    fn found(
        &self,
        alloc: Global,
        who: Option<Id>,
        directory: u64,
        pattern: &Pattern,
    ) -> Result<TextList, NoMemory> {
        let entries = self.entries(who, directory, pattern)?;
        listed_names(alloc, &entries)
    }

    fn bytes(&self, who: Option<Id>, file: u64) -> PlacedRef<'_> {
        match who {
            Some(transaction) => self.bytes_in(transaction, file),
            None => self.tree.content(file),
        }
    }

    fn is_first_opening(&self, who: Option<Id>, file: u64) -> bool {
        match who {
            Some(transaction) => !self.knows(transaction, file),
            None => false,
        }
    }

    fn next_node(&self) -> u64 {
        self.next_node
    }

    fn last_open(&self) -> u32 {
        self.opens.last()
    }

    fn check(&self, who: Option<Id>, act: Act<'_>) -> Option<Refusal> {
        self.check_act(who, &act)
    }

    #[tactic(auto, unfolding(ktm_world::specs::FileOutcome::lacks_quota))]
    fn lacks_quota(&self, who: Option<Id>, plan: &Plan, room: &Room) -> bool {
        self.waiting_after(who, plan) > room.changes as u64
            || lacks_handles(plan, room)
            || self.passes_numbers(plan)
    }

    #[tactic(auto, unfolding(ktm_world::specs::FileOutcome::lacks_disk))]
    fn lacks_disk(&self, who: Option<Id>, plan: &Plan, room: &Room) -> bool {
        let units = room.units as u128;
        self.units_after(who, plan) > units || self.nodes_after(who, plan) > units
    }
}
