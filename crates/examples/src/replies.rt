//! Requests that are made of a new store, and its replies as one text.
use crate::fixtures::{SETTINGS, SOURCE, TEXT, caller, new_store, path};
use crate::imports::{File, delete_one, import_file, keep, replace_by};
use crate::requests::{add_source, add_text, import, import_with};
use crate::roots::{
    add_temp, delete, delete_generation, drop_permanent, drop_user_root, end_session,
    new_generation, one_runtime_root, rollback, set_permanent, set_user_root, switch,
};
use crate::spent::{lost_import, lost_import_with, lost_source};
use policy::{CallerError, store_dir};
use report::reply_text;
use std::alloc::Global;
use std::test::Fail;
use store::{Reply, Request, Store};
use tables::MemStore;

/// What is asked of a store.
#[derive(Clone, Copy)]
pub enum Asked {
    AddText,
    AddSource,
    Import,
    ImportWith,
    LostSource,
    LostImport,
    LostImportWith,
    List,
    Info,
    LsOfText,
    LsOfSource,
    Nar,
    SetPermanent,
    DropPermanent,
    SetUserRoot,
    DropUserRoot,
    ListRoots,
    RootsOf,
    NewGeneration,
    Rollback,
    Switch,
    DeleteGeneration,
    OneRuntimeRoot,
    NoRuntimeRoot,
    AddTemp,
    EndSession,
    Live,
    Dead,
    Report,
    Delete,
    /// Whether what is live is deleted too, and up to how many bytes.
    Collect(bool, Option<u64>),
    /// A file is imported.
    ImportFile(File),
    /// The path of this base name is deleted.
    DeleteOne(&'static str),
    /// A runtime root of this label on this base name replaces all.
    ReplaceBy(&'static str, &'static str),
    /// A root of `bob` on this base name.
    Keep(&'static str),
}

/// A request: the user, and what is asked.
pub type Step = (&'static str, Asked);

fn request_of(alloc: Global, asked: Asked) -> Result<Request, Fail> {
    match asked {
        Asked::AddText => add_text(alloc),
        Asked::AddSource => add_source(alloc),
        Asked::Import => import(alloc, None),
        Asked::ImportWith => import_with(alloc),
        Asked::LostSource => lost_source(alloc),
        Asked::LostImport => lost_import(alloc, None),
        Asked::LostImportWith => lost_import_with(alloc),
        Asked::List => Ok(Request::List),
        Asked::Info => Ok(Request::Info(path(alloc, SOURCE)?)),
        Asked::LsOfText => Ok(Request::Ls(path(alloc, TEXT)?)),
        Asked::LsOfSource => Ok(Request::Ls(path(alloc, SOURCE)?)),
        Asked::Nar => Ok(Request::Nar(path(alloc, SOURCE)?)),
        Asked::SetPermanent => set_permanent(alloc),
        Asked::DropPermanent => drop_permanent(alloc),
        Asked::SetUserRoot => set_user_root(alloc),
        Asked::DropUserRoot => drop_user_root(alloc),
        Asked::ListRoots => Ok(Request::ListRoots),
        Asked::RootsOf => Ok(Request::RootsOf(path(alloc, TEXT)?)),
        Asked::NewGeneration => new_generation(alloc),
        Asked::Rollback => rollback(alloc),
        Asked::Switch => switch(alloc),
        Asked::DeleteGeneration => delete_generation(alloc),
        Asked::OneRuntimeRoot => one_runtime_root(alloc),
        Asked::NoRuntimeRoot => Ok(Request::ReplaceRuntime(Vec::new(alloc))),
        Asked::AddTemp => add_temp(alloc),
        Asked::EndSession => end_session(alloc),
        Asked::Live => Ok(Request::Live),
        Asked::Dead => Ok(Request::Dead),
        Asked::Report => Ok(Request::Report),
        Asked::Delete => delete(alloc),
        Asked::Collect(ignore_liveness, max_freed) => Ok(Request::Collect {
            ignore_liveness,
            max_freed,
        }),
        Asked::ImportFile(file) => import_file(alloc, file),
        Asked::DeleteOne(base) => delete_one(alloc, base),
        Asked::ReplaceBy(label, base) => replace_by(alloc, label, base),
        Asked::Keep(base) => keep(alloc, base),
    }
}

/// The reply of a store to a request of a user.
fn reply_to(
    alloc: Global,
    store: &mut Store<MemStore>,
    user: &str,
    request: Request,
) -> Result<Reply, CallerError> {
    let caller = caller(alloc, user)?;
    Ok(store.call(&caller, request))
}

/// Calls a store, and appends the text of its reply.
fn ask(
    alloc: Global,
    store: &mut Store<MemStore>,
    user: &str,
    request: Request,
    text: &mut Vec<u8>,
) -> Result<(), Fail> {
    let reply = reply_to(alloc, store, user, request)?;
    reply_text(alloc, store_dir(store.config()), &reply, text)?;
    Ok(())
}

fn ask_all(
    alloc: Global,
    steps: &[Step],
    store: &mut Store<MemStore>,
    text: &mut Vec<u8>,
) -> Result<(), Fail> {
    for step in steps {
        let request = request_of(alloc, step.1)?;
        ask(alloc, store, step.0, request, text)?;
    }
    Ok(())
}

/// What a new store under these settings replies to these requests, one after another.
pub fn replies_under(alloc: Global, settings: &[u8], steps: &[Step]) -> Result<Vec<u8>, Fail> {
    let mut store = new_store(alloc, settings)?;
    let mut text = Vec::new(alloc);
    let end = ask_all(alloc, steps, &mut store, &mut text);
    drop(store.release().release());
    end?;
    Ok(text)
}

/// What a new store replies to these requests, where `ann` is trusted and `bob` is allowed.
pub fn replies_to(alloc: Global, steps: &[Step]) -> Result<Vec<u8>, Fail> {
    replies_under(alloc, SETTINGS, steps)
}
