// The handles of all processes.
ghost use Rattle.std.specs.Prelude.{◌≡◌, ℕ, ◌<◌, ◌≤◌, ◌+◌, ◌-◌, ◌^◌, ◌++◌, ◌∷◌, [], length, is_some, min, option_and_then, true, None, Some, IfNone, IfSome, IsOk, OnOk, OnSome};
ghost use Rattle.std.specs.Option.{option_map};
ghost use Rattle.ktm_world.specs.Handles.{no_handle_left, object_at};
ghost use Rattle.ktm_world.specs.HandleCalls.{labels_of, without_handle};
ghost use Rattle.ktm_world.specs.Labels.{with_handle};
ghost use Rattle.ktm_object.specs.Table.{closed_of, first_label, handle_at};

use crate::closed::Closed;
use crate::name::{LabelName, OwnerName, label_bytes, object_owner, owner_bytes, owner_name};
use ktm_base::{Label, MOST_HANDLES, NoMemory, Pid};
use ktm_links::{Chains, Key, List, first_under, key_under};
use ktm_world::{Handle, Object};
use std::alloc::Global;
use std::marker::Model;

/// Which process holds which object under which label, in the order in which they were bound.
#[derive(Drop)]
pub struct Handles {
    listed: List<Handle>,
    // The keys of the handles, by process and label, and by object.
    by_label: Chains<LabelName, Key>,
    by_object: Chains<OwnerName, Key>,
}

impl Model for Handles {
    ghost use Rattle.std.specs.Prelude.{min};
    ghost use Rattle.ktm_object.specs.Table.{HandleTable};

    ghost Value = { HandleTable };

    ghost use Rattle.ktm_links.specs.Indexed.{values_of};
    ghost use Rattle.ktm_object.specs.Indexed.{IsIndexed};

    ghost view = { λ h. record {
      handles = values_of h.listed.items;
      ever = h.listed.next;
      spare = min h.listed.spare (min h.by_label.spare h.by_object.spare);
    } };

    ghost invariant = { λ h. IsIndexed h.listed h.by_label h.by_object };
}

impl Handles {
    /// A table of no handles.
    pub fn new(alloc: Global) -> Self
        ensures handles { result.handles ≡ [] }
        ensures ever { result.ever ≡ 0 }
    {
        Handles {
            listed: List::new(alloc),
            by_label: Chains::new(alloc),
            by_object: Chains::new(alloc),
        }
    }

    // The handle of a process under a label.
    fn handle(&self, process: Pid, label: Label) -> Option<Handle>
        ensures handle { result ≡ handle_at self.now.handles process label }
        ensures object { option_map (λ h. h.object) result ≡ object_at self.now.handles process label }
    {
        match key_under(&self.by_label, &label_bytes(process, label)) {
            Some(key) => self.listed.get(key).copied(),
            None => None,
        }
    }

    /// What a label of a process names.
    pub fn get(&self, process: Pid, label: Label) -> Option<Object>
        ensures { result ≡ object_at self.now.handles process label }
    {
        self.handle(process, label).map(|handle| handle.object)
    }

    /// How many handles are bound.
    pub fn len(&self) -> usize
        ensures { result ≡ length self.now.handles }
    {
        self.listed.len()
    }

    /// Would one handle more pass the limit over all processes.
    pub fn is_full(&self) -> bool
        ensures { result ≡ no_handle_left self.now.handles }
    {
        self.len() >= MOST_HANDLES
    }

    /// How many handles all processes may still bind.
    pub fn left(&self) -> u32
        ensures { result ≡ MOST_HANDLES - length self.now.handles }
    {
        MOST_HANDLES.saturating_sub(self.len()) as u32
    }

    /// How many handles can be bound without memory.
    pub fn spare(&self) -> usize
        ensures { result ≡ self.now.spare }
    {
        let maps = self.by_label.spare().min(self.by_object.spare());
        self.listed.spare().min(maps)
    }

    /// Makes room for so many more handles. It fails where the memory does not reach, or where fewer can be told from all
    /// that were ever bound, which are at most 2^64 - 1.
    pub fn reserve(&mut self, n: usize) -> Result<(), NoMemory>
        ensures room { OnOk result (n ≤ self.new.spare) }
        ensures enough { n ≤ self.old.spare → IsOk result }
        ensures handles { self.new.handles ≡ self.old.handles }
        ensures ever { self.new.ever ≡ self.old.ever }
        ensures spare { self.old.spare ≤ self.new.spare }
    {
        if let Err(NoMemory) = self.listed.reserve(n) {
            return Err(NoMemory);
        }
        if let Err(NoMemory) = self.by_label.reserve(n) {
            return Err(NoMemory);
        }
        if let Err(NoMemory) = self.by_object.reserve(n) {
            return Err(NoMemory);
        }
        Ok(())
    }

    /// Binds a label that is not bound to an object, and takes no memory.
    pub fn insert(&mut self, process: Pid, label: Label, object: Object)
        requires spare { 0 < self.old.spare }
        requires free { object_at self.old.handles process label ≡ None }
        ensures handles { self.new.handles ≡ with_handle self.old.handles process label object }
        ensures ever { self.new.ever ≡ self.old.ever + 1 }
        ensures spare { self.new.spare + 1 ≡ self.old.spare }
    {
        let key = self.listed.push_spare(Handle {
            process,
            label,
            object,
        });
        self.by_label.insert(label_bytes(process, label), key);
        let owner = object_owner(object);
        self.by_object
            .insert(owner_name(owner, process, label), key);
    }

    /// Binds a label that is not bound to what another label names, and takes no memory.
    pub fn duplicate(&mut self, to: Pid, new: Label, from: Pid, old: Label)
        requires spare { 0 < self.old.spare }
        requires free { object_at self.old.handles to new ≡ None }
        requires named { is_some (object_at self.old.handles from old) ≡ true }
        ensures handles { Some self.new.handles ≡ option_map (with_handle self.old.handles to new) (object_at self.old.handles from old) }
        ensures ever { self.new.ever ≡ self.old.ever + 1 }
        ensures spare { self.new.spare + 1 ≡ self.old.spare }
    {
        let Some(object) = self.get(from, old) else {
            unreachable!();
        };
        self.insert(to, new, object);
    }

    /// Unbinds a label, and gives its place back.
    pub fn close(&mut self, process: Pid, label: Label) -> Option<Closed>
        ensures closed { result ≡ closed_of self.old.handles process label }
        ensures handles { self.new.handles ≡ without_handle self.old.handles process label }
        ensures ever { self.new.ever ≡ self.old.ever }
        ensures spare { OnSome result (self.new.spare ≡ min (self.old.spare + 1) (2 ^ 64 - 1 - self.old.ever)) }
        ensures kept { IfNone result (self.new.spare ≡ self.old.spare) }
    {
        let bytes = label_bytes(process, label);
        let Some(key) = key_under(&self.by_label, &bytes) else {
            return None;
        };
        let Some(handle) = self.listed.unlink(key) else {
            unreachable!();
        };
        self.by_label.remove(&bytes);
        let object = object_owner(handle.object);
        self.by_object.remove(&owner_name(object, process, label));
        let other = first_under(&self.by_object, &owner_bytes(object));
        Some(Closed {
            label,
            object: handle.object,
            is_last: other.is_none(),
        })
    }

    /// Unbinds the least label of the process, if it has one.
    pub fn exit_next(&mut self, process: Pid) -> Option<Closed>
        ensures closed { result ≡ option_and_then (closed_of self.old.handles process) (first_label (labels_of self.old.handles process)) }
        ensures labels { IfSome result (λ closed. labels_of self.old.handles process ≡ closed.label ∷ labels_of self.new.handles process) }
        ensures handles { IfSome result (λ closed. self.new.handles ≡ without_handle self.old.handles process closed.label) }
        ensures ever { self.new.ever ≡ self.old.ever }
        ensures spare { OnSome result (self.new.spare ≡ min (self.old.spare + 1) (2 ^ 64 - 1 - self.old.ever)) }
        ensures none { IfNone result (labels_of self.old.handles process ≡ []) }
        ensures unchanged { IfNone result (self.new ≡ self.old) }
    {
        let Some(key) = first_under(&self.by_label, &[process.0]) else {
            return None;
        };
        let Some(handle) = self.listed.get(key) else {
            unreachable!();
        };
        let label = handle.label;
        self.close(process, label)
    }
}
