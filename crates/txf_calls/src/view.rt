// The names that a caller sees.
ghost use Rattle.std.specs.Prelude.{◌≡◌};
ghost use Rattle.std.specs.Option.{option_map};
ghost use Rattle.ktm_world.specs.Tree.{Tree, child_of};
ghost use Rattle.txf_calls.specs.Leads.{seen_of};

/// A node as a caller sees it.
#[derive(Clone, Copy)]
pub struct Seen {
    pub number: u64,
    /// The number of the directory that it is in.
    pub parent: u64,
    pub is_file: bool,
}

/// The names that a caller sees: those that are committed, or these with what a transaction made, moved and dropped.
pub trait View {
    // The tree that is seen.
    ghost tree: { Self → Tree };

    /// The node with this name, compared without case, in a directory. It takes no memory.
    fn child(&self, directory: u64, name: &[u8]) -> Option<Seen>
        ensures { result ≡ option_map seen_of (child_of (tree self.now) directory name.now) };
}
