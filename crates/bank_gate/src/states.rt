// The states of a bank. Each keeps its place alone and is seen as that place, whose parts lie in
// the greatest flash and have no block in common. How the board stands, the calls' clauses say.
mod armed;
mod closed;
mod idle;
mod opened;
mod sealed;
mod wiped;

pub use armed::Armed;
pub use closed::Closed;
pub use idle::Idle;
pub use opened::Opened;
pub use sealed::Sealed;
pub use wiped::Wiped;
