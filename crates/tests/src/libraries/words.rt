//! The texts of faults that the program reports in words of its own.
use drv::DrvError;
use policy::{CallerError, ConfigError, KeyWord};
use std::test::Fail;

#[test]
fn words_of_faults(rt: HostRuntime) -> Result<(), Fail> {
    let alloc = rt.alloc();
    for (error, word) in [
        (DrvError::BadDerivation, "bad-derivation"),
        (DrvError::DoubleOutput, "double-output"),
        (DrvError::Memory, "memory"),
    ] {
        let shown = error.to_string(alloc)?;
        assert_eq!(rt; shown.as_str(), word);
    }
    let unknown = ConfigError::Bad(KeyWord::UnknownKey).to_string(alloc)?;
    let unnamed = CallerError::BadCaller.to_string(alloc)?;
    assert!(rt; unknown.as_str() == "bad-config unknown-key");
    assert!(rt; unnamed.as_str() == "bad-caller");
    Ok(())
}
