//! The outputs of a text, as the program prints them.

use drv::{DrvError, outputs};
use paths::{StoreDir, StorePath};
use std::io;

/// The store directory.
const DIR: &str = "/nix/store";

/// A derivation with one output.
pub const EXAMPLE: &str =
    r#"Derive([("out","/nix/store/11111111111111111111111111111111-o","","")],[],[],"p","b",[],[])"#;

/// The outputs that a text records under `/nix/store`, or its fault.
pub fn found(rt: &impl AllocGlobal, text: &[u8]) -> Result<Vec<(String, StorePath)>, DrvError> {
    match StoreDir::parse(rt.alloc(), DIR) {
        Ok(dir) => outputs(rt.alloc(), text, &dir),
        Err(_) => Err(DrvError::Memory),
    }
}

/// Prints a line `NAME FULLPATH` for each output, or the word of the fault.
pub fn run(rt: &(impl Print + AllocGlobal), text: &[u8]) -> io::Result<()> {
    match found(rt, text) {
        Ok(found) => {
            for (name, path) in &found {
                println!(rt; "{name} {DIR}/{path}")?;
            }
            Ok(())
        }
        Err(e) => println!(rt; "{e}"),
    }
}
