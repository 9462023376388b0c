use edge_board::Failed;

/// A call on the board has failed, and the board has counted it. The module is to be restarted.
#[derive(Clone, Copy, Debug, PartialEq, Eq)]
pub struct Fault;

impl From<Failed> for Fault {
    fn from(_: Failed) -> Self {
        Fault
    }
}
