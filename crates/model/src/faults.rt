//! The refusals of what is wrong with an archive, or with a derivation text.
ghost use Rattle.std.specs.Prelude.{◌≡◌};
ghost use Rattle.model.specs.Faults.{archive_refusal, derivation_refusal};

use crate::refusal::Refusal;
use drv::DrvError;
use nar::NarError;

impl Refusal {
    /// The refusal of a fault of an archive; none where memory was refused, which is no fault of an archive.
    pub fn of_archive(fault: NarError) -> Option<Refusal>
        ensures { result ≡ archive_refusal fault }
    {
        match fault {
            NarError::Truncated => Some(Refusal::Truncated),
            NarError::BadTag => Some(Refusal::BadTag),
            NarError::BadPadding => Some(Refusal::BadPadding),
            NarError::BadName => Some(Refusal::BadName),
            NarError::NotSorted => Some(Refusal::NotSorted),
            NarError::TooDeep => Some(Refusal::TooDeep),
            NarError::Trailing => Some(Refusal::Trailing),
            NarError::TooLarge => Some(Refusal::TooLarge),
            NarError::Memory => None,
        }
    }

    /// The refusal of a fault of a derivation text; none where memory was refused, which is no fault of a text.
    pub fn of_derivation(fault: DrvError) -> Option<Refusal>
        ensures { result ≡ derivation_refusal fault }
    {
        match fault {
            DrvError::BadDerivation => Some(Refusal::BadDerivation),
            DrvError::DoubleOutput => Some(Refusal::DoubleOutput),
            DrvError::Memory => None,
        }
    }
}
