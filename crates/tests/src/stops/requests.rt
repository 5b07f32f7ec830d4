//! Requests as data.
use crate::libraries::archives::spelled;
use paths::StorePath;
use std::alloc::Global;
use std::test::Fail;
use store::{Intake, Request};

/// An archive by its words, and its SHA-256, which another program computed.
#[derive(Clone, Copy)]
pub struct Archive {
    pub words: &'static str,
    pub hash: [u8; 32],
}

/// An empty file: 112 bytes.
pub const EMPTY: Archive = Archive {
    words: "nix-archive-1 ( type regular contents - )",
    hash: [
        0x77, 0xac, 0x62, 0xe2, 0x62, 0x9d, 0x8e, 0x45, 0xf6, 0x24, 0x58, 0x9c, 0x0c, 0x8b, 0xf9,
        0x9e, 0x24, 0xb3, 0xa7, 0x22, 0x34, 0x9b, 0xf1, 0xe7, 0x9b, 0xc1, 0x86, 0x00, 0x85, 0x34,
        0xe2, 0x46,
    ],
};

/// A derivation text with one output: 208 bytes.
pub const DERIVATION: Archive = Archive {
    words: r#"nix-archive-1 ( type regular contents Derive([("out","/nix/store/11111111111111111111111111111111-o","","")],[],[],"p","b",[],[]) )"#,
    hash: [
        0xb1, 0x39, 0xe6, 0x2c, 0x24, 0x92, 0xdc, 0x18, 0x03, 0xc7, 0xd0, 0x8b, 0xc1, 0x0b, 0x15,
        0x5f, 0x79, 0xfc, 0x55, 0xf3, 0x18, 0x9f, 0x8c, 0x2d, 0xd8, 0xc2, 0x2c, 0x13, 0xb3, 0x12,
        0x5f, 0x47,
    ],
};

/// What `ann` asks. Roots and profiles have the name `r`.
#[derive(Clone, Copy)]
pub enum Step {
    /// Imports an archive at a path.
    Import(Archive, &'static str),
    /// Imports an archive at a path, with a deriver.
    ImportOf(Archive, &'static str, &'static str),
    SetRoot(&'static str),
    SetProfile(&'static str),
    Rollback,
    DeleteGeneration(u32),
    Collect,
    Dead,
}

fn import(
    alloc: Global,
    archive: &Archive,
    base: &str,
    deriver: Option<StorePath>,
) -> Result<Request, Fail> {
    Ok(Request::Import {
        path: StorePath::from_base(alloc, base)?,
        nar_hash: archive.hash,
        refs: Vec::new(alloc),
        deriver,
        ca: None,
        nar: Intake::of_bytes(alloc, &spelled(alloc, archive.words)?)?,
    })
}

fn import_of(alloc: Global, archive: &Archive, base: &str, deriver: &str) -> Result<Request, Fail> {
    let deriver = StorePath::from_base(alloc, deriver)?;
    import(alloc, archive, base, Some(deriver))
}

fn set_root(alloc: Global, base: &str) -> Result<Request, Fail> {
    Ok(Request::SetUserRoot {
        user: String::from_str(alloc, "ann")?,
        name: String::from_str(alloc, "r")?,
        path: StorePath::from_base(alloc, base)?,
    })
}

fn set_profile(alloc: Global, base: &str) -> Result<Request, Fail> {
    Ok(Request::SetProfile {
        user: String::from_str(alloc, "ann")?,
        profile: String::from_str(alloc, "r")?,
        path: StorePath::from_base(alloc, base)?,
    })
}

fn rollback(alloc: Global) -> Result<Request, Fail> {
    Ok(Request::Rollback {
        user: String::from_str(alloc, "ann")?,
        profile: String::from_str(alloc, "r")?,
    })
}

fn delete_generation(alloc: Global, n: u32) -> Result<Request, Fail> {
    Ok(Request::DeleteGeneration {
        user: String::from_str(alloc, "ann")?,
        profile: String::from_str(alloc, "r")?,
        n,
    })
}

/// The request of a step.
pub fn request_of(alloc: Global, step: &Step) -> Result<Request, Fail> {
    match step {
        Step::Import(archive, base) => import(alloc, archive, base, None),
        Step::ImportOf(archive, base, deriver) => import_of(alloc, archive, base, deriver),
        Step::SetRoot(base) => set_root(alloc, base),
        Step::SetProfile(base) => set_profile(alloc, base),
        Step::Rollback => rollback(alloc),
        Step::DeleteGeneration(n) => delete_generation(alloc, *n),
        Step::Collect => Ok(Request::Collect {
            ignore_liveness: false,
            max_freed: None,
        }),
        Step::Dead => Ok(Request::Dead),
    }
}
