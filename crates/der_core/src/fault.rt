/// Why no element stands at the front of octets.
#[derive(Clone, Copy, Debug, PartialEq, Eq)]
pub enum DerFault {
    /// They begin an element, and more octets could complete it.
    Short,

    /// No element begins so, whatever follows.
    Malformed,
}
