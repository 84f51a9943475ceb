// The tree.
ghost use Rattle.std.specs.Prelude.{◌≡◌, ◌+◌, ◌-◌, ◌^◌, ◌<◌, ◌≤◌, ℕ, [], None, false, true, length, OnOk, IsOk, IfOk, fold, ◌≢◌};
ghost use Rattle.std.specs.Option.{option_map};
ghost use Rattle.ktm_content.specs.Places.{CanBePut};
ghost use Rattle.ktm_world.specs.declared.change.Change.TheVariants.{Make, Put, Cut, Move, Drop};
ghost use Rattle.ktm_links.specs.Mapped.{Begins};
ghost use Rattle.ktm_world.specs.Changes.{applies, bytes_in, changed, changed_all, new_content, node_of};
ghost use Rattle.ktm_world.specs.Committed.{final_bytes, version_of, versions_after, without_version};
ghost use Rattle.ktm_world.specs.Tree.{bytes_of, child_of, content_of, has_entries, is_at_or_below, is_directory, is_file, node_at, numbers_rise};
ghost use Rattle.txf_tree.specs.Children.{node_seen, entries_in, matching};
ghost use Rattle.txf_tree.specs.Places.{entries_from, number_bytes};
ghost use Rattle.txf_tree.specs.TreeState.{bytes_now, dropped, fits, room_of, has_room, takes, tree_of, versions_of, IsApplied, KeepsRoom, KeepsRooms};
ghost use Rattle.txf_tree.specs.UnitChanges.{CanBeMade};

use crate::change::{bytes_in, changes_bytes, is_whole, node_of};
use crate::node_ref::{NodeRef, node_ref};
use crate::nodes::Nodes;
use ktm_base::{NoMemory, Text};
use ktm_content::{Content, Placed, PlacedRef};
use ktm_names::Pattern;
use ktm_world::{Change, Contents, NodeKind};
use std::alloc::Global;
use std::marker::Model;
use txf_nodes::{Entries, NodeTable};

/// The committed files and directories.
#[derive(Drop)]
pub struct Tree {
    alloc: Global,
    nodes: NodeTable<Content>,
}

impl Model for Tree {
    ghost use Rattle.txf_tree.specs.TreeState.{TreeState};

    ghost Value = { TreeState };

    ghost view = { λ t. t.nodes };
}

/// The entries of a directory that are left.
pub type Children<'a> = txf_nodes::Children<'a, Content>;

// How many changes give a file these bytes: it is cut, and they are put where there are any.
fn changes_to(bytes: &Placed) -> u64
    ensures changes { (file : ℕ) → result ≡ length (final_bytes file bytes.now) }
    ensures few { result ≤ 2 }
{
    if bytes.is_empty() { 1 } else { 2 }
}

// What a new node of this kind contains.
fn new_content(alloc: Global, kind: NodeKind) -> Option<Content>
    ensures { option_map bytes_now result ≡ new_content kind }
{
    match kind {
        NodeKind::File => Some(Content::new(alloc)),
        NodeKind::Directory => None,
    }
}

// The bytes of the content, if there is one.
fn bytes_of(content: Option<Content>) -> Option<Placed>
    ensures { result ≡ option_map bytes_now content }
{
    match content {
        Some(content) => Some(Placed::new(content)),
        None => None,
    }
}

impl Tree {
    /// A tree of the root alone.
    pub fn new(alloc: Global) -> Self
        ensures tree { tree_of result ≡ [] }
        ensures versions { versions_of result ≡ [] }
    {
        Tree {
            alloc,
            nodes: NodeTable::new(alloc),
        }
    }

    /// The numbers of its nodes rise.
    pub fn law_of_numbers(&self)
        ensures { numbers_rise (tree_of self.now) ≡ true }
    {
        self.nodes.law_of_numbers();
    }

    /// How many nodes there are beside the root.
    pub fn len(&self) -> usize
        ensures { result ≡ length (tree_of self.now) }
    {
        self.nodes.len()
    }

    /// The node with the number. The root has none.
    pub fn node(&self, number: u64) -> Option<NodeRef<'_>>
        ensures { option_map node_seen result ≡ node_at (tree_of self.now) number }
    {
        match self.nodes.node(number) {
            Some(node) => Some(node_ref(node)),
            None => None,
        }
    }

    /// The nodes but the root, by rising number, one after another.
    pub fn nodes(&self) -> Nodes<'_>
        ensures { result ≡ tree_of self.now }
    {
        Nodes::new(self.nodes.by_number())
    }

    pub fn is_file(&self, number: u64) -> bool
        ensures { result ≡ is_file (tree_of self.now) number }
    {
        self.nodes.is_file(number)
    }

    /// The root is a directory.
    pub fn is_directory(&self, number: u64) -> bool
        ensures { result ≡ is_directory (tree_of self.now) number }
    {
        self.nodes.is_directory(number)
    }

    /// The bytes of a file, lent; none where there is no file.
    pub fn content(&self, file: u64) -> PlacedRef<'_>
        ensures { result ≡ bytes_of (tree_of self.now) file }
    {
        match self.nodes.content(file) {
            Some(content) => content.lend(),
            None => PlacedRef::none(),
        }
    }

    /// How many bytes a file has.
    pub fn size(&self, file: u64) -> u64
        ensures { result ≡ length (bytes_of (tree_of self.now) file) }
    {
        self.content(file).len()
    }

    /// How often the bytes of a file were changed since the restart.
    pub fn version(&self, file: u64) -> u64
        ensures { result ≡ version_of (versions_of self.now) file }
    {
        self.nodes.version(file)
    }

    /// The number of the node with the name in the directory. It takes no memory.
    pub fn child(&self, directory: u64, name: &[u8]) -> Option<u64>
        ensures { result ≡ option_map (λ node. node.number) (child_of (tree_of self.now) directory name.now) }
    {
        self.nodes.child(directory, name)
    }

    /// Is anything in the directory.
    pub fn has_entries(&self, directory: u64) -> bool
        ensures { result ≡ has_entries (tree_of self.now) directory }
    {
        self.nodes.has_entries(directory)
    }

    /// Is the node with the number the other one, or below it. It goes up from the node, and ends at the root.
    pub fn is_at_or_below(&self, number: u64, other: u64) -> bool
        ensures { result ≡ is_at_or_below (tree_of self.now) number other }
    {
        self.nodes.is_at_or_below(number, other)
    }

    /// The entries of a directory whose places are not below this one, one after another.
    pub fn children(&self, directory: u64, from: &[u8]) -> Children<'_>
        requires { Begins (number_bytes directory) from.now }
        ensures { result ≡ entries_from directory from.now (entries_in (tree_of self.now) directory) }
    {
        self.nodes.children(directory, from)
    }

    /// The entries of a directory that a pattern matches, by rising folded name. Their names are lent. No other is looked at
    /// but those that begin with the characters before the pattern's first star or question mark, and the one behind them.
    pub fn entries(&self, directory: u64, pattern: &Pattern) -> Result<Entries<'_>, NoMemory>
        ensures { IfOk result (λ entries. entries ≡ matching pattern.now.last (entries_in (tree_of self.now) directory)) }
    {
        self.nodes.entries(directory, pattern)
    }

    /// Makes room for so many more nodes. It fails where the memory does not reach, or where the tree has had nearly 2^64
    /// nodes and names.
    pub fn reserve(&mut self, n: usize) -> Result<(), NoMemory>
        ensures room { OnOk result (n ≤ self.new.spare) }
        ensures enough { n ≤ self.old.spare → IsOk result }
        ensures nodes { self.new.nodes ≡ self.old.nodes }
        ensures spare { self.old.spare ≤ self.new.spare }
    {
        self.nodes.reserve(n)
    }

    /// Does the change apply. It takes no memory, and looks up what it names; a move goes up from its directory to the root.
    pub fn applies(&self, change: &Change) -> bool
        ensures { result ≡ applies (tree_of self.now) change.now }
    {
        let nodes = &self.nodes;
        match change {
            Change::Make {
                node,
                parent,
                name,
                ..
            } => nodes.may_make(*node, *parent, name.as_slice()),
            Change::Put { node, contents, .. } => nodes.is_file(*node) && is_whole(contents),
            Change::Cut { node, pages, .. } => nodes.is_file(*node) && pages.is_empty(),
            Change::Move { node, parent, name } => nodes.may_move(*node, *parent, name.as_slice()),
            Change::Drop { node } => nodes.may_drop(*node),
        }
    }

    /// Takes the memory that a change needs, so that it fits.
    pub fn prepare(&mut self, change: &Change) -> Result<(), NoMemory>
        ensures fits { OnOk result (fits self.new change.now ≡ true) }
        ensures enough { fits self.old change.now ≡ true → IsOk result }
        ensures tree { tree_of self.new ≡ tree_of self.old }
        ensures versions { versions_of self.new ≡ versions_of self.old }
        ensures rooms { KeepsRooms self.old self.new }
        ensures spare { self.old.spare ≤ self.new.spare }
    {
        match change {
            Change::Make { .. } => self.reserve(1),
            Change::Put {
                node,
                offset,
                contents,
            } => self.reserve_bytes(*node, *offset, bytes_in(contents).len()),
            Change::Cut { node, size, .. } => self.reserve_bytes(*node, *size, 0),
            Change::Move { .. } => self.reserve(1),
            Change::Drop { .. } => Ok(()),
        }
    }

    /// Makes a change that applies and for which the memory is there, and hands out the bytes of a file that it drops. Contents
    /// change unit by unit: the pages of a Put are written where they go, and nothing else is copied.
    pub fn apply(&mut self, change: Change) -> Option<Placed>
        requires applies { applies (tree_of self.old) change ≡ true }
        requires units { CanBeMade (tree_of self.old) change }
        requires fits { fits self.old change ≡ true }
        requires few { version_of (versions_of self.old) (node_of change) < 2 ^ 64 - 2 }
        ensures bytes { result ≡ dropped (tree_of self.old) change }
        ensures tree { tree_of self.new ≡ changed (tree_of self.old) change }
        ensures versions { versions_of self.new ≡ versions_after (versions_of self.old) change }
        ensures rooms { KeepsRoom self.old self.new change }
        ensures spare { self.old.spare ≤ self.new.spare + takes change }
    {
        match change {
            Change::Make {
                node,
                parent,
                kind,
                name,
            } => {
                self.make(node, parent, kind, name);
                None
            }
            Change::Put {
                node,
                offset,
                contents,
            } => {
                self.put(node, offset, &contents);
                None
            }
            Change::Cut { node, size, .. } => {
                self.cut(node, size);
                None
            }
            Change::Move { node, parent, name } => {
                self.rename(node, parent, name);
                None
            }
            Change::Drop { node } => self.remove(node),
        }
    }

    /// Makes a change of a log that is read again, which applies and for which the memory is there: the bytes of files count
    /// as never changed. It hands out the bytes of a file that it drops.
    pub fn restore(&mut self, change: Change) -> Option<Placed>
        requires applies { applies (tree_of self.old) change ≡ true }
        requires units { CanBeMade (tree_of self.old) change }
        requires fits { fits self.old change ≡ true }
        requires rest { versions_of self.old ≡ [] }
        ensures bytes { result ≡ dropped (tree_of self.old) change }
        ensures tree { tree_of self.new ≡ changed (tree_of self.old) change }
        ensures versions { versions_of self.new ≡ [] }
        ensures rooms { KeepsRoom self.old self.new change }
        ensures spare { self.old.spare ≤ self.new.spare + takes change }
    {
        let node = node_of(&change);
        let counts = changes_bytes(&change);
        let bytes = self.apply(change);
        if counts {
            self.forget_version(node);
        }
        bytes
    }

    /// Makes a node if that applies, and tells whether it does. The memory is there.
    pub fn make_new(&mut self, node: u64, parent: u64, kind: NodeKind, name: Text) -> bool
        requires { 0 < self.old.spare }
        ensures applies { result ≡ applies (tree_of self.old) (Make node parent kind name) }
        ensures applied { result ≡ true → IsApplied self.old self.new (Make node parent kind name) }
        ensures unchanged { result ≡ false → self.new ≡ self.old }
    {
        let content = new_content(self.alloc, kind);
        if let Err(_) = self.nodes.make_new(node, parent, name, content) {
            return false;
        }
        true
    }

    /// Gives a file other bytes, which a commit has put together, and hands out those that it had. No byte is copied.
    pub fn replace(&mut self, file: u64, bytes: Placed) -> Placed
        requires file { is_file (tree_of self.old) file ≡ true }
        requires few { version_of (versions_of self.old) file < 2 ^ 64 - 2 }
        ensures bytes { result ≡ bytes_of (tree_of self.old) file }
        ensures tree { tree_of self.new ≡ changed_all (tree_of self.old) (final_bytes file bytes) }
        ensures versions { versions_of self.new ≡ fold versions_after (versions_of self.old) (final_bytes file bytes) }
        ensures rooms { (other : ℕ) → other ≢ file → room_of self.new other ≡ room_of self.old other }
        ensures spare { self.new.spare ≡ self.old.spare }
    {
        let changes = changes_to(&bytes);
        Placed::new(self.nodes.replace(file, bytes.into_content(), changes))
    }

    // Makes a node, for which the memory is there.
    fn make(&mut self, node: u64, parent: u64, kind: NodeKind, name: Text)
        requires applies { applies (tree_of self.old) (Make node parent kind name) ≡ true }
        requires fits { fits self.old (Make node parent kind name) ≡ true }
        ensures { IsApplied self.old self.new (Make node parent kind name) }
    {
        let content = new_content(self.alloc, kind);
        self.nodes.make(node, parent, name, content);
    }

    // Puts units into a file that has room for them.
    fn put(&mut self, node: u64, offset: u64, contents: &Contents)
        requires applies { applies (tree_of self.old) (Put node offset contents.now) ≡ true }
        requires units { CanBePut (bytes_of (tree_of self.old) node) offset (bytes_in contents.now) }
        requires fits { fits self.old (Put node offset contents.now) ≡ true }
        requires few { version_of (versions_of self.old) node < 2 ^ 64 - 2 }
        ensures { IsApplied self.old self.new (Put node offset contents.now) }
    {
        match self.nodes.content_mut(node, 1) {
            Some(content) => content.put(offset, bytes_in(contents)),
            None => unreachable!(),
        }
    }

    // Cuts a file.
    fn cut(&mut self, node: u64, size: u64)
        requires file { is_file (tree_of self.old) node ≡ true }
        requires shorter { size ≤ length (bytes_of (tree_of self.old) node) }
        requires few { version_of (versions_of self.old) node < 2 ^ 64 - 2 }
        ensures { IsApplied self.old self.new (Cut node size []) }
    {
        match self.nodes.content_mut(node, 1) {
            Some(content) => content.cut(size),
            None => unreachable!(),
        }
    }

    // Gives a node another name, or another directory.
    fn rename(&mut self, node: u64, parent: u64, name: Text)
        requires applies { applies (tree_of self.old) (Move node parent name) ≡ true }
        requires fits { fits self.old (Move node parent name) ≡ true }
        ensures { IsApplied self.old self.new (Move node parent name) }
    {
        self.nodes.rename(node, parent, name);
    }

    // The bytes of the node with the number, if there is one, count as never changed.
    fn forget_version(&mut self, number: u64)
        ensures tree { tree_of self.new ≡ tree_of self.old }
        ensures versions { versions_of self.new ≡ without_version (versions_of self.old) number }
        ensures rooms { KeepsRooms self.old self.new }
        ensures spare { self.new.spare ≡ self.old.spare }
    {
        self.nodes.forget_version(number);
    }

    // Takes a node out, and hands out the bytes of a file.
    fn remove(&mut self, node: u64) -> Option<Placed>
        ensures bytes { result ≡ content_of (node_at (tree_of self.old) node) }
        ensures applied { IsApplied self.old self.new (Drop node) }
    {
        bytes_of(self.nodes.remove(node))
    }

    // Takes the memory with which a file, if it is one, can have so many bytes from the offset on.
    fn reserve_bytes(&mut self, file: u64, offset: u64, many: u64) -> Result<(), NoMemory>
        ensures fits { OnOk result (has_room self.new file (offset + many) ≡ true) }
        ensures enough { has_room self.old file (offset + many) ≡ true → IsOk result }
        ensures tree { tree_of self.new ≡ tree_of self.old }
        ensures versions { versions_of self.new ≡ versions_of self.old }
        ensures rooms { KeepsRooms self.old self.new }
        ensures spare { self.new.spare ≡ self.old.spare }
    {
        let Some(content) = self.nodes.content_mut(file, 0) else {
            return Ok(());
        };
        content.reserve(offset, many)
    }
}
