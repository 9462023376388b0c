// The store of a module.

use bank_layout::Bank;
use block_pool::Pool;
use config_table::State;
use module_record::Module;

/// What a module's flash says, in memory. A valid one is `IsStore` of specs/Store.
#[derive(Drop)]
pub struct Store {
    pub module: Module,
    /// How many packages were installed.
    pub sequence: u64,
    /// What is installed, and what is stale.
    pub state: State,
    /// The bank whose manifest says so. None where nothing was ever installed.
    pub running: Option<Bank>,
    /// The image blocks, each live or free.
    pub pool: Pool,
}
