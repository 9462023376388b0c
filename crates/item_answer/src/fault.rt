// Why an item wasn't answered.

/// Why an item wasn't answered.
#[derive(Clone, Copy, Debug, PartialEq, Eq)]
pub enum ItemFault {
    /// The board has failed. The module is to be restarted.
    Failed,
    /// Memory was wanting. Nothing was sent, and the flash is as it was.
    Memory,
}
