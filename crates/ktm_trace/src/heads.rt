// The transactions of the log, without their parts.
ghost use Rattle.std.specs.Prelude.{◌≡◌, ◌<◌, ◌≤◌, [], None, IfOk, OnOk, OnSome, length};
ghost use Rattle.std.specs.List.{position, position_or_len};
ghost use Rattle.ktm_world.specs.Durable.{is_before};
ghost use Rattle.ktm_world.specs.Transactions.{same_id};
ghost use Rattle.ktm_trace.specs.Joined.{head_id, head_or_new};
ghost use Rattle.ktm_trace.specs.Placed.{Rises, at_id, placed, without_id};

use ktm_base::{Id, NoMemory};
use ktm_world::Stage;
use std::alloc::Global;
use std::marker::Model;

/// A transaction of the log, without its parts.
#[derive(Clone, Copy)]
pub(crate) struct Head {
    pub(crate) id: Id,
    pub(crate) stage: Stage,
    /// The enlistment of its superior.
    pub(crate) superior: Option<Id>,
}

/// Transactions of the log by rising Id. There are few of them.
#[derive(Drop)]
pub(crate) struct Heads {
    items: Vec<Head>,
}

impl Model for Heads {
    ghost use Rattle.std.specs.Prelude.{vec_capacity};
    ghost use Rattle.ktm_trace.specs.Joined.{HeadsState};

    ghost Value = { HeadsState };

    ghost view = { λ t. record {
      heads = t.items.items;
      capacity = vec_capacity t.items;
    } };
}

// Does the first Id come before the second: by its boot, and then by its number.
fn is_before(a: Id, b: Id) -> bool
    ensures { result ≡ is_before a b }
{
    a.boot < b.boot || (a.boot == b.boot && a.number < b.number)
}

// The index of the transaction with this Id.
fn index_of(items: &[Head], id: Id) -> Option<usize>
    ensures { result ≡ position (λ h. same_id h.id id) items.now }
{
    items.iter().position(|h| h.id == id)
}

// The index of the first that this Id comes before.
fn first_behind(items: &[Head], id: Id) -> Option<usize>
    ensures { result ≡ position (λ h. is_before id h.id) items.now }
{
    items.iter().position(|h| is_before(id, h.id))
}

// The place of this Id: before the first that it comes before.
fn place_of(items: &[Head], id: Id) -> usize
    ensures place { result ≡ position_or_len (λ h. is_before id h.id) items.now }
    ensures within { result ≤ length items.now }
{
    first_behind(items, id).unwrap_or(items.len())
}

impl Heads {
    /// No transactions, and room for so many.
    pub(crate) fn with_capacity(alloc: Global, capacity: usize) -> Result<Self, NoMemory>
        ensures none { IfOk result (λ heads. heads.heads ≡ []) }
        ensures room { IfOk result (λ heads. capacity ≤ heads.capacity) }
    {
        Ok(Heads {
            items: Vec::with_capacity(alloc, capacity)?,
        })
    }

    pub(crate) fn as_slice(&self) -> &[Head]
        ensures { result.now ≡ self.now.heads }
    {
        &self.items
    }

    /// Makes room for one transaction more.
    pub(crate) fn reserve_one(&mut self) -> Result<(), NoMemory>
        ensures room { OnOk result (length self.new.heads < self.new.capacity) }
        ensures same { self.new.heads ≡ self.old.heads }
        ensures capacity { self.old.capacity ≤ self.new.capacity }
    {
        self.items.reserve(1)?;
        Ok(())
    }

    /// Takes the transaction with this Id out, which leaves room for it.
    pub(crate) fn take(&mut self, id: Id) -> Option<Head>
        requires { Rises head_id self.old.heads }
        ensures taken { result ≡ at_id head_id self.old.heads id }
        ensures rest { self.new.heads ≡ without_id head_id self.old.heads id }
        ensures room { OnSome result (length self.new.heads < self.new.capacity) }
        ensures capacity { self.new.capacity ≡ self.old.capacity }
    {
        let Some(index) = index_of(&self.items, id) else {
            return None;
        };
        Some(self.items.remove(index))
    }

    /// Takes the transaction with this Id out, or makes a new one that is ready.
    pub(crate) fn take_or_new(&mut self, id: Id) -> Head
        requires { Rises head_id self.old.heads }
        ensures taken { result ≡ head_or_new id (at_id head_id self.old.heads id) }
        ensures rest { self.new.heads ≡ without_id head_id self.old.heads id }
        ensures capacity { self.new.capacity ≡ self.old.capacity }
    {
        match self.take(id) {
            Some(head) => head,
            None => Head {
                id,
                stage: Stage::Ready,
                superior: None,
            },
        }
    }

    /// Puts a transaction at its place, where there is none with its Id. It takes no memory.
    pub(crate) fn put(&mut self, head: Head)
        requires room { length self.old.heads < self.old.capacity }
        requires new { at_id head_id self.old.heads head.id ≡ None }
        ensures heads { self.new.heads ≡ placed head_id self.old.heads head }
        ensures capacity { self.new.capacity ≡ self.old.capacity }
    {
        let place = place_of(&self.items, head.id);
        self.items.insert(place, head).unwrap();
    }
}
