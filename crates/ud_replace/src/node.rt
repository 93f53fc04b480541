//! What is at a path, as a walk over directories and a search of files see it.

/// The kind of thing at a path.
#[derive(Clone, Copy, Debug, PartialEq, Eq)]
pub enum NodeKind {
    /// A regular file.
    File,
    /// A directory.
    Directory,
    /// A symbolic link.
    Link,
    /// A device, a pipe or a socket.
    Other,
}

/// The identity of a file, whatever its name.
#[derive(Clone, Copy, Debug, PartialEq, Eq, PartialOrd, Ord)]
pub struct FileId {
    /// The number of the device.
    pub device: u64,
    /// The number of the file on that device.
    pub inode: u64,
    /// When the file was created, in nanoseconds since the beginning of 1970; 0 if unknown. A later
    /// file may get the number of one that is gone.
    pub born: u64,
}

/// A file, a directory or anything else at a path.
#[derive(Clone, Copy, Debug, PartialEq, Eq)]
pub struct Node {
    /// Its kind.
    pub kind: NodeKind,
    /// Its identity.
    pub id: FileId,
}

/// The answer to a look at a path.
#[derive(Clone, Copy, Debug, PartialEq, Eq)]
pub enum Lookup {
    /// This is at the path.
    Present(Node),
    /// Nothing is at the path.
    Absent,
    /// The look failed, so what is at the path isn't known.
    Unknown,
}

/// The result of reading a file that is only searched.
#[derive(Clone, Copy, Debug, PartialEq, Eq)]
pub enum Sample {
    /// All of the file, which is text.
    Whole,
    /// The beginning of a file that isn't text.
    Binary,
    /// The beginning of a text in UTF-16.
    Utf16,
    /// The beginning of a text that is too large to be searched.
    TooLarge,
    /// Some of a file that can't be read, or nothing.
    Unread,
}
