// What fits an image, each the contract of a function that does nothing.
ghost use Rattle.ktm_room.specs.Frames.{FramesLaw};
ghost use Rattle.ktm_room.specs.Snapshots.{SnapshotsLaw};

use ktm_records::law_of_file_calls;

/// The group of one command, of the passing of time and of a restart fits an empty log, with a gate behind it.
pub fn law_of_frames()
    ensures { FramesLaw }
{
    law_of_file_calls();
}

/// A good durable state fits the area of a snapshot.
pub fn law_of_snapshots()
    ensures { SnapshotsLaw }
{}
