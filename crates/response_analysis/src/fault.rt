// Why there are no responses.
use thiserror::Error;

/// Why there are no responses.
#[derive(Clone, Copy, Debug, Error)]
pub enum TaskFault {
    /// The first task that has no response of at most its period.
    #[error("task {task} is late")]
    Late { task: u32 },
    /// Memory ran out.
    #[error("memory ran out")]
    Memory,
}
