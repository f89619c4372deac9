/// Why bytes are no privilege of a name.
#[derive(Clone, Copy, PartialEq, Eq)]
pub enum PrivFault {
    /// No privilege of a copy has the name.
    UnknownName,

    /// The bytes spell no privilege of that name; the first item that is refused stands at this place.
    BadXdr { at: usize },
}
