//! Laws of snapshots.

ghost use Rattle.mme_snapshot.specs.Saved.{PartsRestore};

/// The parts of a snapshot in their order, one after another, restore to what is remembered of the MME: to all of it but the vectors
/// that are spent. So octets restore to one MME at most.
pub fn parts_restore()
    ensures { PartsRestore }
{}
