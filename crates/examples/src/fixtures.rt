//! What several callers use: an archive, paths, a store directory, callers and stores in memory.
use paths::{StoreDir, StoreDirError, StorePath, StorePathError};
use policy::{Caller, CallerError, Config};
use std::alloc::Global;
use std::test::Fail;
use store::Store;
use tables::MemStore;

/// The archive of a file whose contents are `mycontent` and a line feed.
pub const MY_FILE: &[u8] = b"\x0d\0\0\0\0\0\0\0nix-archive-1\0\0\0\
\x01\0\0\0\0\0\0\0(\0\0\0\0\0\0\0\
\x04\0\0\0\0\0\0\0type\0\0\0\0\
\x07\0\0\0\0\0\0\0regular\0\
\x08\0\0\0\0\0\0\0contents\
\x0a\0\0\0\0\0\0\0mycontent\n\0\0\0\0\0\0\
\x01\0\0\0\0\0\0\0)\0\0\0\0\0\0\0";

/// The SHA-256 digest of that archive.
pub const MY_HASH: [u8; 32] = [
    0x2b, 0xfe, 0xf6, 0x7d, 0xe8, 0x73, 0xc5, 0x45, 0x51, 0xd8, 0x84, 0xfd, 0xab, 0x30, 0x55, 0xd8,
    0x4d, 0x57, 0x3e, 0x65, 0x4e, 0xfa, 0x79, 0xdb, 0x3c, 0x0d, 0x7b, 0x98, 0x88, 0x3f, 0x9e, 0xe3,
];

/// The path of the file as a text named `myfile`.
pub const TEXT: &str = "a0d1zlpv81nsfbam8ay3i7snrc0sgsvr-myfile";

/// The path of the archive as a source named `myfile`.
pub const SOURCE: &str = "xv2iccirbrvklck36f1g7vldn5v58vck-myfile";

/// The content address of that source.
pub const ADDRESS: &str = "fixed:r:sha256:1qwy7y49hyqd7kdpkyjfclz5fkfqalqapzc4v18lbibkx1yzdzib";

/// `ann` is trusted, `bob` is allowed, and nobody else is.
pub const SETTINGS: &[u8] = b"allowed-users = [\"bob\"]\ntrusted-users = [\"ann\"]\n";

/// The store path of a base name.
pub fn path(alloc: Global, base: &str) -> Result<StorePath, StorePathError> {
    StorePath::from_base(alloc, base)
}

pub fn store_dir(alloc: Global) -> Result<StoreDir, StoreDirError> {
    StoreDir::parse(alloc, "/nix/store")
}

/// A caller without a group.
pub fn caller(alloc: Global, name: &str) -> Result<Caller, CallerError> {
    Caller::new(alloc, name, None)
}

/// A store in memory, under these settings, in which there is nothing yet.
pub fn new_store(alloc: Global, settings: &[u8]) -> Result<Store<MemStore>, Fail> {
    let config = Config::from_toml(alloc, settings)?;
    let tables = tables::open_in_memory(alloc, policy::store_dir(&config))?;
    Ok(Store::new(alloc, config, tables))
}
