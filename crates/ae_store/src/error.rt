// Why no state is loaded.

use ae_base::Text;
use thiserror::Error;

/// Why no state is loaded.
#[derive(Debug, Drop, Error)]
pub enum StoreError {
    /// The state file of this name is the first that breaks a rule.
    #[error("a state file is damaged")]
    Damaged(Text),
    /// A call of the disk failed.
    #[error("disk fault")]
    DiskFault,
    #[error("out of memory")]
    Memory,
}
