//! A caller of `tables`, which changes them. What has to be known of a world is tested at run time.

ghost use Rattle.std.specs.Prelude.{◌≤◌};

use crate::fixtures::{TEXT, path};
use nar::{Node, is_writable, read, write};
use paths::{StoreDir, StorePath, is_plain_name};
use sha2::{Digest, Sha256};
use std::alloc::Global;
use std::collections::BTreeSet;
use std::test::Fail;
use tables::{Alter, Details, Failed, Outputs, Pieces, RootName, Summary, Tables};

/// No runtime root is left.
fn forget_runtime<S: Alter>(alloc: Global, tables: &mut Tables<S>) -> Result<(), Failed> {
    tables.replace_runtime(BTreeSet::new(alloc))
}

/// No object is removed.
fn remove_none<S: Alter>(tables: &mut Tables<S>) -> Result<(), Failed> {
    tables.remove_objects(&[])
}

/// Drops the permanent root `system`.
fn drop_system<S: Alter>(tables: &mut Tables<S>) -> Result<(), Failed> {
    tables.drop_root(RootName::Permanent("system"))
}

/// Drops the root `editor` of `ann`.
fn drop_editor<S: Alter>(tables: &mut Tables<S>) -> Result<(), Failed> {
    tables.drop_root(RootName::User("ann", "editor"))
}

/// Drops the permanent root `boot`.
fn drop_boot<S: Alter>(tables: &mut Tables<S>) -> Result<(), Failed> {
    tables.drop_permanent("boot")
}

/// Drops the root `shell` of `ann`.
fn drop_shell<S: Alter>(tables: &mut Tables<S>) -> Result<(), Failed> {
    tables.drop_user_root("ann", "shell")
}

/// Ends a session of `ann`.
fn end<S: Alter>(tables: &mut Tables<S>) -> Result<usize, Failed> {
    tables.end_session("ann", 7)
}

/// Puts the permanent root `system` on an object.
fn put_system<S: Alter>(tables: &mut Tables<S>, path: &StorePath) -> Result<(), Fail> {
    if !tables.outline().has(path) {
        return Err(Fail::new("no object"));
    }
    tables.put_root(RootName::Permanent("system"), path)?;
    Ok(())
}

/// Puts the root `editor` of `ann` on an object.
fn put_editor<S: Alter>(tables: &mut Tables<S>, path: &StorePath) -> Result<(), Fail> {
    if !tables.outline().has(path) {
        return Err(Fail::new("no object"));
    }
    tables.put_root(RootName::User("ann", "editor"), path)?;
    Ok(())
}

/// Puts the permanent root `boot` on an object.
fn put_boot<S: Alter>(tables: &mut Tables<S>, path: &StorePath) -> Result<(), Fail> {
    if !tables.outline().has(path) {
        return Err(Fail::new("no object"));
    }
    tables.put_permanent("boot", path)?;
    Ok(())
}

/// Puts the root `shell` of `ann` on an object.
fn put_shell<S: Alter>(tables: &mut Tables<S>, path: &StorePath) -> Result<(), Fail> {
    if !tables.outline().has(path) {
        return Err(Fail::new("no object"));
    }
    tables.put_user_root("ann", "shell", path)?;
    Ok(())
}

/// A session of `ann` keeps an object.
fn keep<S: Alter>(tables: &mut Tables<S>, path: &StorePath) -> Result<(), Fail> {
    if !tables.outline().has(path) {
        return Err(Fail::new("no object"));
    }
    tables.add_temp("ann", 7, path)?;
    Ok(())
}

/// Puts an object at a number of the profile `work` of `ann`, which becomes current.
fn put_work<S: Alter>(tables: &mut Tables<S>, number: u32, path: &StorePath) -> Result<(), Fail>
    requires least { 1 ≤ number }
    requires most { number ≤ 9999 }
{
    if !tables.outline().has(path) {
        return Err(Fail::new("no object"));
    }
    tables.put_profile("ann", "work", Some((number, path)), number)?;
    Ok(())
}

/// An owner and the name of a profile.
fn work(alloc: Global) -> Result<(String, String), Fail> {
    let owner = String::from_str(alloc, "ann")?;
    let name = String::from_str(alloc, "work")?;
    Ok((owner, name))
}

/// Sets a profile to an object.
fn set<S: Alter>(
    tables: &mut Tables<S>,
    owned: &(String, String),
    path: &StorePath,
) -> Result<(), Fail> {
    if !is_plain_name(owned.0.as_str()) {
        return Err(Fail::new("no plain owner"));
    }
    if !is_plain_name(owned.1.as_str()) {
        return Err(Fail::new("no plain name"));
    }
    if !tables.outline().has(path) {
        return Err(Fail::new("no object"));
    }
    let Some(number) = tables.outline().number_left(owned, path) else {
        return Err(Fail::new("no number left"));
    };
    tables.set_profile(owned.0.as_str(), owned.1.as_str(), number, path)?;
    Ok(())
}

/// Switches a profile to a generation.
fn switch<S: Alter>(
    tables: &mut Tables<S>,
    owned: &(String, String),
    number: u32,
) -> Result<(), Fail> {
    if !tables.outline().has_profile(owned) {
        return Err(Fail::new("no profile"));
    }
    if !tables.outline().has_generation(owned, number) {
        return Err(Fail::new("no generation"));
    }
    tables.switch_generation(owned.0.as_str(), owned.1.as_str(), number)?;
    Ok(())
}

/// Drops a generation that isn't current.
fn drop_older<S: Alter>(
    tables: &mut Tables<S>,
    owned: &(String, String),
    number: u32,
) -> Result<(), Fail> {
    if !tables.outline().has_profile(owned) {
        return Err(Fail::new("no profile"));
    }
    if tables.outline().current_generation(owned) == number {
        return Err(Fail::new("a current generation"));
    }
    tables.drop_generation(owned.0.as_str(), owned.1.as_str(), number)?;
    Ok(())
}

/// Adds a file at a path that has no object and isn't a derivation's.
fn add_file<S: Alter>(
    alloc: Global,
    tables: &mut Tables<S>,
    path: &StorePath,
    contents: &[u8],
) -> Result<(), Fail> {
    // A store path is a base name.
    let _text = path.as_str();
    if path.is_derivation() {
        return Err(Fail::new("a derivation"));
    }
    if tables.outline().has(path) {
        return Err(Fail::new("an object"));
    }
    let node = Node::Regular {
        executable: false,
        contents,
    };
    if !is_writable(&node) {
        return Err(Fail::new("no archive"));
    }
    let mut archive = Vec::new(alloc);
    write(&node, &mut archive)?;
    drop(read(alloc, &archive)?);
    let size = archive.len();
    let hash = Sha256::digest(&archive);
    let outputs = Outputs {
        names: Vec::new(alloc),
        paths: Vec::new(alloc),
    };
    let details = Details {
        deriver: None,
        ca: None,
        outputs,
    };
    let object = Summary::new(alloc, size, hash, Vec::new(alloc), details)?;
    let mut nar = Pieces::new(alloc);
    nar.append(archive)?;
    tables.insert_object(path, &nar, object)?;
    Ok(())
}

/// Puts roots on an object, and drops them.
fn change_roots<S: Alter>(
    alloc: Global,
    tables: &mut Tables<S>,
    path: &StorePath,
) -> Result<bool, Fail> {
    put_system(tables, path)?;
    put_boot(tables, path)?;
    let permanent = tables.outline().permanent_roots().len();
    put_editor(tables, path)?;
    put_shell(tables, path)?;
    let users = tables.outline().user_roots().len();
    keep(tables, path)?;
    let kept = end(tables)?;
    forget_runtime(alloc, tables)?;
    drop_system(tables)?;
    drop_boot(tables)?;
    drop_editor(tables)?;
    drop_shell(tables)?;
    let outline = tables.outline();
    let is_empty = outline.permanent_roots().is_empty() && outline.user_roots().is_empty();
    Ok(permanent == 2 && users == 2 && kept == 1 && is_empty)
}

/// Puts generations of an object, and drops the first.
fn change_profile<S: Alter>(
    alloc: Global,
    tables: &mut Tables<S>,
    path: &StorePath,
) -> Result<bool, Fail> {
    let owned = work(alloc)?;
    put_work(tables, 1, path)?;
    put_work(tables, 2, path)?;
    switch(tables, &owned, 1)?;
    // The path is that of the highest generation.
    set(tables, &owned, path)?;
    drop_older(tables, &owned, 1)?;
    let outline = tables.outline();
    Ok(outline.current_generation(&owned) == 2 && !outline.has_generation(&owned, 1))
}

/// Adds a file, and changes what refers to it.
fn change_all<S: Alter>(
    alloc: Global,
    tables: &mut Tables<S>,
    path: &StorePath,
) -> Result<bool, Fail> {
    add_file(alloc, tables, path, b"mycontent\n")?;
    let roots = change_roots(alloc, tables, path)?;
    let profile = change_profile(alloc, tables, path)?;
    remove_none(tables)?;
    Ok(roots && profile && tables.outline().has(path))
}

#[test]
fn changed(rt: HostRuntime) -> Result<(), Fail> {
    let alloc = rt.alloc();
    let dir = StoreDir::parse(alloc, "/nix/store")?;
    let path = path(alloc, TEXT)?;
    let mut tables = tables::open_in_memory(alloc, &dir)?;
    let changed = change_all(alloc, &mut tables, &path);
    drop(tables.release());
    assert!(rt; changed?);
    Ok(())
}
