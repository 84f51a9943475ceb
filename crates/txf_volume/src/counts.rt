// How much transactions changed.
ghost use Rattle.std.specs.Prelude.{◌≡◌, ◌+◌, ◌<◌, ◌≤◌, ◌^◌};
ghost use Rattle.txf_volume.specs.OwnParts.{counts_of};

use txf_overlay::Overlay;

/// How much one transaction changed, or all of them together.
#[derive(Clone, Copy)]
pub(crate) struct Counts {
    // The units of the files that were written.
    pub(crate) units: u64,
    // The nodes that were made and left.
    pub(crate) nodes: u64,
    // The changes of names.
    pub(crate) names: u64,
}

/// How much one transaction changed, before one change more and after it.
#[derive(Clone, Copy)]
pub(crate) struct Counted {
    pub(crate) before: Counts,
    pub(crate) after: Counts,
}

impl Counts {
    /// Of nothing.
    pub(crate) fn new() -> Counts
        ensures { result ≡ record { units = 0; nodes = 0; names = 0 } }
    {
        Counts {
            units: 0,
            nodes: 0,
            names: 0,
        }
    }

    /// Of what one transaction changed.
    pub(crate) fn of(overlay: &Overlay) -> Counts
        ensures { result ≡ counts_of overlay.now }
    {
        Counts {
            units: overlay.units(),
            nodes: overlay.nodes_made() as u64,
            names: overlay.changes_len() as u64,
        }
    }

    /// Without what one transaction changed.
    pub(crate) fn without(self, one: Counts) -> Counts
        requires units { one.units ≤ self.units }
        requires nodes { one.nodes ≤ self.nodes }
        requires names { one.names ≤ self.names }
        ensures units { result.units + one.units ≡ self.units }
        ensures nodes { result.nodes + one.nodes ≡ self.nodes }
        ensures names { result.names + one.names ≡ self.names }
    {
        Counts {
            units: self.units - one.units,
            nodes: self.nodes - one.nodes,
            names: self.names - one.names,
        }
    }

    /// With what one transaction changed.
    pub(crate) fn with(self, one: Counts) -> Counts
        requires units { self.units + one.units < 2 ^ 64 }
        requires nodes { self.nodes + one.nodes < 2 ^ 64 }
        requires names { self.names + one.names < 2 ^ 64 }
        ensures units { result.units ≡ self.units + one.units }
        ensures nodes { result.nodes ≡ self.nodes + one.nodes }
        ensures names { result.names ≡ self.names + one.names }
    {
        Counts {
            units: self.units + one.units,
            nodes: self.nodes + one.nodes,
            names: self.names + one.names,
        }
    }
}
