//! What was seen of a directory before.

/// What was seen of a directory before: by it is chosen what is asked first of its files. Nothing that is answered rests on it.
#[derive(Clone, Copy, Debug)]
pub struct Known {
    /// Whether the folder of files aside was there.
    pub(crate) asides: bool,
    /// Whether a file stood where the last one was to be made, or none was to be made so far.
    pub(crate) stood: bool,
}

impl Known {
    /// Nothing so far.
    pub fn nothing() -> Known {
        Known {
            asides: false,
            stood: true,
        }
    }
}
