// A node as it is kept.
ghost use Rattle.std.specs.Prelude.{◌≡◌, ◌<◌, ◌≤◌, ◌+◌, ◌^◌, Some, length, is_some, option_copied, true};
ghost use Rattle.ktm_base.specs.declared.limits.TheConstants.{MOST_NAME_BYTES};
ghost use Rattle.txf_nodes.specs.Children.{entry_seen, shown_of};

use crate::entry::Entry;
use ktm_base::Text;
use std::marker::Model;

/// A node, whose name has at most 255 bytes.
#[derive(Drop)]
pub struct StoredNode<C> {
    number: u64,
    parent: u64,
    name: Text,
    content: Option<C>,
    version: u64,
}

impl<C> Model for StoredNode<C> {
    ghost use Rattle.std.specs.Prelude.{◌≤◌, length};
    ghost use Rattle.ktm_base.specs.declared.limits.TheConstants.{MOST_NAME_BYTES};
    ghost use Rattle.txf_nodes.specs.NodesState.{NodeOf, node_code};

    ghost Value = { NodeOf C };

    ghost coded = { node_code C.code };

    ghost view = { λ s. record {
      number = s.number;
      parent = s.parent;
      name = s.name;
      content = s.content;
      version = s.version;
    } };

    ghost invariant = { λ s. length s.name ≤ MOST_NAME_BYTES };
}

impl<C> StoredNode<C> {
    ghost use Rattle.std.specs.Borrow.{sem};
    ghost use Rattle.txf_nodes.specs.Lends.{lends_content};

    // A node whose content was never changed.
    pub(crate) fn new(number: u64, parent: u64, name: Text, content: Option<C>) -> Self
        requires { length name ≤ MOST_NAME_BYTES }
        ensures { result ≡ record { number = number; parent = parent; name = name; content = content; version = 0 } }
    {
        StoredNode {
            number,
            parent,
            name,
            content,
            version: 0,
        }
    }

    pub fn number(&self) -> u64
        ensures { result ≡ self.now.number }
    {
        self.number
    }

    /// The number of the directory that it is in.
    pub fn parent(&self) -> u64
        ensures { result ≡ self.now.parent }
    {
        self.parent
    }

    pub fn name(&self) -> &[u8]
        ensures name { result.now ≡ self.now.name }
        ensures few { length result.now ≤ MOST_NAME_BYTES }
    {
        self.name.as_slice()
    }

    pub fn is_file(&self) -> bool
        ensures { result ≡ is_some self.now.content }
    {
        self.content.is_some()
    }

    /// The content of a file; a directory has none.
    pub fn content(&self) -> Option<&C>
        ensures { option_copied result ≡ self.now.content }
    {
        self.content.as_ref()
    }

    /// How often the content was changed since the restart.
    pub fn version(&self) -> u64
        ensures { result ≡ self.now.version }
    {
        self.version
    }

    // The content of a file, for writing, which counts as so many changes.
    pub(crate) fn content_mut(&mut self, changes: u64) -> &mut C
        requires file { is_some self.old.content ≡ true }
        requires few { 0 < changes → self.old.version + changes < 2 ^ 64 }
        ensures* writes_back { sem 𝓛 (lends_content C.row self.entry changes result) }
        ensures value { Some result.now ≡ self.old.content }
    {
        self.version += changes;
        match self.content.as_mut() {
            Some(content) => content,
            None => unreachable!(),
        }
    }

    // The node, as an entry of its directory.
    pub(crate) fn as_entry(&self) -> Entry<'_>
        ensures entry { entry_seen result ≡ shown_of self.now }
        ensures few { length result.name.now ≤ MOST_NAME_BYTES }
    {
        Entry {
            name: self.name(),
            is_directory: !self.is_file(),
        }
    }

    // The content of a file.
    pub(crate) fn into_content(self) -> Option<C>
        ensures { result ≡ self.content }
    {
        self.content
    }

    // Gives the node another directory and another name.
    pub(crate) fn rename(&mut self, parent: u64, name: Text)
        requires { length name ≤ MOST_NAME_BYTES }
        ensures { self.new ≡ record self.old { parent = parent; name = name } }
    {
        self.parent = parent;
        self.name = name;
    }

    // The content counts as never changed.
    pub(crate) fn forget_version(&mut self)
        ensures { self.new ≡ record self.old { version = 0 } }
    {
        self.version = 0;
    }
}
