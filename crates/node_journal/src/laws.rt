// Each law is carried by a function with an empty body, whose one clause states it.
ghost use Rattle.node_journal.specs.Laws.{OneList, NoList, NextOfList, OneFrame, NoFrame, OneReading, OneGate, Settled, StoppedAppend, StoppedDisk};

/// An image stands for at most one list.
pub fn one_list()
    ensures { OneList }
{}

/// An image of more than one byte whose open gate leads nowhere stands for no list.
pub fn no_list()
    ensures { NoList }
{}

/// The payload of a frame that stands behind the first payloads of a list comes next in it.
pub fn next_of_list()
    ensures { NextOfList }
{}

/// A gate has at most one frame behind it.
pub fn one_frame()
    ensures { OneFrame }
{}

/// A gate that leads nowhere has no frame behind it.
pub fn no_frame()
    ensures { NoFrame }
{}

/// Two readings of an image are the same, or the one goes on where the other stands.
pub fn one_reading()
    ensures { OneReading }
{}

/// The gate behind a list stands where the list's frames end.
pub fn one_gate()
    ensures { OneGate }
{}

/// After an `append` that failed the disk stands for the payloads before, or for them and the new one: so an
/// opening without a crash settles on one of the two lists, and keeps it from its first sync on.
pub fn settled()
    ensures { Settled }
{}

/// A call of `append` on a disk in memory was done and stopped, and the disk crashed: it stands for the payloads
/// before or for them and the new one, by the number of the call and by what the crash keeps.
pub fn stopped_append()
    ensures { StoppedAppend }
{}

/// The same, from what `append` ensures of a disk in memory whose script stops at one of the four calls.
pub fn stopped_disk()
    ensures { StoppedDisk }
{}
