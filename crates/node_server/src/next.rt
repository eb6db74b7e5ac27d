use link_codec::Frame;

/// What comes next on a connection.
#[derive(Debug, Drop)]
pub enum Next {
    /// A whole frame, which is no longer unread.
    Frame(Frame),
    /// No frame begins so, whatever follows.
    Bad,
    /// The input ended behind the last frame.
    End,
    /// The input ended within a frame.
    CutOff,
    /// A read failed.
    Failed,
    /// There was no memory; what came is unread still.
    NoMemory,
}
