//! Why a run gives no answer.
ghost use Rattle.std.specs.Prelude.{◌≡◌};
ghost use Rattle.nntp_check.specs.Inner.Faults.{of_capture, of_error, of_text};
ghost use Rattle.nntp_check.specs.declared.run_fault.RunFault.TheVariants.{Memory, Write};

use crate::capture_reader::BadPiece;
use nntp_pair::PairError;
use nntp_spool::{Kind, ReadFault, WriteFault};
use std::alloc::AllocError;
use thiserror::Error;

/// Why a run gives no answer. With each but `Write` nothing was written.
#[derive(Clone, Copy, Debug, PartialEq, Eq, Error)]
pub enum RunFault {
    /// The reader answered an error, or was interrupted, which is an error too.
    #[error("read failed")]
    Read,
    /// More octets came than the run may read.
    #[error("input too long")]
    TooLong,
    /// The input is no capture.
    #[error("bad capture piece {piece}")]
    Capture {
        /// The first piece that is none, counted from 1.
        piece: u64,
    },
    /// The joined spool pieces are the text of no spool.
    #[error("{0}")]
    Spool(ReadFault),
    /// Memory was refused.
    #[error("out of memory")]
    Memory,
    /// The writer answered an error, or took no octet where it was given one or more. It took a front of the report.
    #[error("write failed")]
    Write,
}

impl From<AllocError> for RunFault {
    ghost from_gives = { λ _ fault. fault ≡ Memory };

    fn from(_error: AllocError) -> RunFault {
        RunFault::Memory
    }
}

impl From<PairError> for RunFault {
    ghost from_gives = { λ error fault. fault ≡ of_error error };

    fn from(error: PairError) -> RunFault {
        match error {
            PairError::Memory | PairError::Failed => RunFault::Memory,
            PairError::TooLong => RunFault::TooLong,
        }
    }
}

impl From<WriteFault> for RunFault {
    ghost from_gives = { λ _ fault. fault ≡ Write };

    fn from(_fault: WriteFault) -> RunFault {
        RunFault::Write
    }
}

impl From<BadPiece> for RunFault {
    ghost from_gives = { λ bad fault. fault ≡ of_capture bad };

    fn from(bad: BadPiece) -> RunFault {
        RunFault::Capture { piece: bad.piece }
    }
}

impl From<ReadFault> for RunFault {
    ghost from_gives = { λ fault result. result ≡ of_text fault };

    fn from(fault: ReadFault) -> RunFault {
        match fault.kind {
            Kind::Memory => RunFault::Memory,
            _ => RunFault::Spool(fault),
        }
    }
}
