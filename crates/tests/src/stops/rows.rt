//! Imports, roots, collections and generations, each stopped at each call of a file.
use crate::stops::cases::case_of;
use crate::stops::disks::Contents;
use crate::stops::requests::{DERIVATION, EMPTY, Step};
use crate::stops::stop_both;
use crate::stops::texts::TABLES;
use std::alloc::Global;
use std::test::Fail;

const KEEPS_BOTH: &[u8] =
    b"trusted-users = [\"ann\"]\nkeep-outputs = true\nkeep-derivations = true\n";

const KEEPS_OUTPUTS: &[u8] =
    b"trusted-users = [\"ann\"]\nkeep-outputs = true\nkeep-derivations = false\n";

const TEXT: &str = "00000000000000000000000000000000-d.drv";

const OUTPUT: &str = "11111111111111111111111111111111-o";

/// A derivation and its output are imported and collected; again, with a root on the output.
const COLLECTED: &[Step] = &[
    Step::Import(DERIVATION, TEXT),
    Step::ImportOf(EMPTY, OUTPUT, TEXT),
    Step::Collect,
    Step::Import(DERIVATION, TEXT),
    Step::ImportOf(EMPTY, OUTPUT, TEXT),
    Step::SetRoot(OUTPUT),
    Step::Collect,
];

const COLLECTED_PRINTED: &str = "/nix/store/00000000000000000000000000000000-d.drv
/nix/store/11111111111111111111111111111111-o
/nix/store/00000000000000000000000000000000-d.drv
/nix/store/11111111111111111111111111111111-o
freed 2 paths 320 bytes
/nix/store/00000000000000000000000000000000-d.drv
/nix/store/11111111111111111111111111111111-o
done
freed 0 paths 0 bytes
";

/// Where derivers aren't kept, the derivation is deleted.
const FREED: &[Step] = &[
    Step::Import(DERIVATION, TEXT),
    Step::ImportOf(EMPTY, OUTPUT, TEXT),
    Step::SetRoot(OUTPUT),
    Step::Collect,
];

const FREED_PRINTED: &str = "/nix/store/00000000000000000000000000000000-d.drv
/nix/store/11111111111111111111111111111111-o
done
/nix/store/00000000000000000000000000000000-d.drv
freed 1 paths 208 bytes
";

const A: &str = "00000000000000000000000000000000-a";

const B: &str = "11111111111111111111111111111111-b";

/// A profile is set to A, to B, back, and to B again; then its generations are deleted.
const SWITCHED: &[Step] = &[
    Step::Import(EMPTY, A),
    Step::Import(EMPTY, B),
    Step::SetProfile(A),
    Step::SetProfile(B),
    Step::Rollback,
    Step::SetProfile(B),
    Step::DeleteGeneration(2),
    Step::DeleteGeneration(1),
    Step::Dead,
    Step::Rollback,
    Step::DeleteGeneration(7),
];

const SWITCHED_REPLY: &str = "/nix/store/00000000000000000000000000000000-a
/nix/store/11111111111111111111111111111111-b
generation 1
generation 2
generation 1
generation 2
refused: 30 current-generation
done
/nix/store/00000000000000000000000000000000-a
refused: 31 no-older-generation
refused: 29 no-generation
";

/// Makes calls over files that hold nothing yet, one of which stops.
fn stop(
    alloc: Global,
    settings: &'static [u8],
    steps: &'static [Step],
    reported: &'static str,
) -> Result<(), Fail> {
    let nothing = Contents {
        log: Vec::new(alloc),
        db: Vec::new(alloc),
    };
    let case = case_of(alloc, nothing, TABLES, settings, steps, reported)?;
    stop_both(alloc, &case)
}

#[test]
fn collections_that_stop(rt: HostRuntime) -> Result<(), Fail> {
    stop(rt.alloc(), KEEPS_BOTH, COLLECTED, COLLECTED_PRINTED)
}

#[test]
fn collections_of_derivations_that_stop(rt: HostRuntime) -> Result<(), Fail> {
    stop(rt.alloc(), KEEPS_OUTPUTS, FREED, FREED_PRINTED)
}

#[test]
fn profiles_that_stop(rt: HostRuntime) -> Result<(), Fail> {
    stop(rt.alloc(), KEEPS_BOTH, SWITCHED, SWITCHED_REPLY)
}
