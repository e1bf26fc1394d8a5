// The files of a volume.

/// A file of the volume. A file that was never written has size 0.
#[derive(Clone, Copy, Debug, PartialEq, Eq)]
pub enum FileId {
    /// The job text.
    Job,
    /// Which checkpoints there are.
    Manifest,
    /// A segment of the journal.
    Journal(u32),
    /// The snapshot that stands for the segments before it.
    Checkpoint(u32),
    /// Records (ISO 28500).
    Warc(u32),
}
