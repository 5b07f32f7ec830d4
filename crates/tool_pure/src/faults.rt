//! The stop for each library error.
ghost use Rattle.std.specs.Prelude.{◌≡◌};
ghost use Rattle.model.specs.declared.failures.Failure.TheVariants.{Memory};
ghost use Rattle.tool_pure.specs.Archive.{archive_stop};
ghost use Rattle.tool_pure.specs.Faults.{name_stop, path_stop, caller_stop, config_stop, body_stop};
ghost use Rattle.tool_pure.specs.declared.stops.Stop.TheVariants.{Failed};

use crate::stops::Stop;
use nar::NarError;
use paths::{NameError, StorePathError};
use policy::{CallerError, ConfigError};
use report::{Failure, Refusal};
use std::alloc::{AllocError, AllocFailed};
use wire_bodies::BodyError;

impl From<AllocError> for Stop {
    ghost from_gives = { λ _ stop. stop ≡ Failed Memory };

    fn from(_: AllocError) -> Stop {
        Stop::Failed(Failure::Memory)
    }
}

impl<T: Drop> From<AllocFailed<T>> for Stop {
    ghost from_gives = { λ _ stop. stop ≡ Failed Memory };

    fn from(_: AllocFailed<T>) -> Stop {
        Stop::Failed(Failure::Memory)
    }
}

impl From<NarError> for Stop {
    ghost from_gives = { λ fault stop. stop ≡ archive_stop fault };

    fn from(fault: NarError) -> Stop {
        match Refusal::of_archive(fault) {
            Some(refusal) => Stop::Refused(refusal),
            None => Stop::Failed(Failure::Memory),
        }
    }
}

impl From<NameError> for Stop {
    ghost from_gives = { λ fault stop. stop ≡ name_stop fault };

    fn from(fault: NameError) -> Stop {
        match fault {
            NameError::BadStoreName => Stop::Refused(Refusal::BadStoreName),
            NameError::Memory => Stop::Failed(Failure::Memory),
        }
    }
}

impl From<StorePathError> for Stop {
    ghost from_gives = { λ fault stop. stop ≡ path_stop fault };

    fn from(fault: StorePathError) -> Stop {
        match fault {
            StorePathError::BadStorePath => Stop::Refused(Refusal::BadStorePath),
            StorePathError::Memory => Stop::Failed(Failure::Memory),
        }
    }
}

impl From<CallerError> for Stop {
    ghost from_gives = { λ fault stop. stop ≡ caller_stop fault };

    fn from(fault: CallerError) -> Stop {
        match fault {
            CallerError::BadCaller => Stop::Refused(Refusal::BadCaller),
            CallerError::Memory => Stop::Failed(Failure::Memory),
        }
    }
}

impl From<ConfigError> for Stop {
    ghost from_gives = { λ fault stop. stop ≡ config_stop fault };

    fn from(fault: ConfigError) -> Stop {
        match fault {
            ConfigError::Bad(word) => Stop::Refused(Refusal::BadConfig(word)),
            ConfigError::Memory => Stop::Failed(Failure::Memory),
        }
    }
}

impl From<BodyError> for Stop {
    ghost from_gives = { λ fault stop. stop ≡ body_stop fault };

    fn from(fault: BodyError) -> Stop {
        match fault {
            BodyError::BadBodyHead => Stop::Refused(Refusal::BadBodyHead),
            BodyError::Memory => Stop::Failed(Failure::Memory),
        }
    }
}
