//! Why a file of a run is not in order.

use cube_language::{CubesFault, ScriptFault};
use cube_values::Text;
use thiserror::Error;

/// Why a file that a run reads before its sessions is not in order. Scripts are numbered from 1.
#[derive(Debug, Drop, Error)]
pub enum BadFile {
    /// There is no file of this name.
    #[error("no file {name}")]
    Absent { name: Text },
    /// The file of this name could not be read.
    #[error("cannot read {name}")]
    ReadFailed { name: Text },
    /// The cubes file has this many bytes, which are more than `CUBES_BYTES`.
    #[error("cubes: CubesTooLong {size}")]
    CubesTooLong { size: u64 },
    /// The cubes file declares no cubes.
    #[error("cubes: {fault}")]
    Cubes { fault: CubesFault },
    /// The script of this number has this many bytes, which are more than `SCRIPT_BYTES`.
    #[error("script {script}: ScriptTooLong {size}")]
    ScriptTooLong { script: u64, size: u64 },
    /// The script of this number is refused whole.
    #[error("script {script}: {fault}")]
    Script { script: u64, fault: ScriptFault },
}
