use std::fmt;

/// How a connection ended.
#[derive(Clone, Copy, Debug, PartialEq, Eq)]
pub enum ConnEnd {
    /// The input ended between two frames, all of which were answered.
    Closed,
    /// The input ended inside a frame.
    CutShort,
    /// The source failed: its count of faults rose.
    ReadFault,
    /// The sink failed: its count of faults rose. A proper front of the replies was written.
    WriteFault,
    /// The sink had no memory: its count of shortages rose. A proper front of the replies was written.
    OutOfMemory,
    /// What came was no frame. The reply that says why is the last one.
    BadFrame,
    /// It began with the number of an owner that nobody has. The reply `out of place` is the only one.
    UnknownOwner,
    /// The disk kept an update frame from being taken. The reply that says so is the last one.
    StoreFault,
}

impl fmt::Display for ConnEnd {
    ghost use Rattle.std.specs.Prelude.{Some};
    ghost use Rattle.tcp_service.specs.Texts.{conn_end_text};

    ghost output = { λ end. Some (conn_end_text end) };

    fn fmt<W: fmt::Write>(&self, f: &mut fmt::Formatter<W>) -> fmt::Result {
        match self {
            ConnEnd::Closed => f.write_str("closed between two frames"),
            ConnEnd::CutShort => f.write_str("closed inside a frame"),
            ConnEnd::ReadFault => f.write_str("nothing more could be read, or not in time"),
            ConnEnd::WriteFault => f.write_str("a reply could not be written, or not in time"),
            ConnEnd::OutOfMemory => f.write_str("out of memory at a reply"),
            ConnEnd::BadFrame => f.write_str("what came was no frame"),
            ConnEnd::UnknownOwner => f.write_str("no owner has the number it began with"),
            ConnEnd::StoreFault => f.write_str("the disk kept an update from being stored"),
        }
    }
}
