//! The store that a command line works with: that of a file, or one in memory.
ghost use Rattle.std.specs.Prelude.{◌≡◌, IfOk};
ghost use Rattle.sqlite.specs.Files.{over_files};
ghost use Rattle.tool_words.specs.Asked.{optional_text};
ghost use Rattle.tool.specs.Files.{DoesFile, DoesOpening};
ghost use Rattle.tool.specs.Streams.{AnswersOn};
ghost use Rattle.tool.specs.Works.{DoesAtPath, DoesNew, DoesWith, DoesWork};

use crate::console::Console;
use crate::files::refuse_file;
use crate::work::{Work, work_with};
use policy::{Config, store_dir};
use sqlite::{Alter, Connection, FileFrom, FileStore, Start};
use std::io::{Read, Write};
use std::rt::HostRuntime;
use store_types::Reply;
use tables::{Close, Disk, Tables, Unopened};
use tool_pure::print_reply;

/// Does some work with a new store in memory, for this run.
fn in_memory<T: Work, R: Read, W: Write, E: Write>(
    rt: &HostRuntime,
    config: Config,
    work: &T,
    console: &mut Console<'_, '_, '_, R, W, E>,
) -> u8
    ensures { AnswersOn (T.most work.now)
        (DoesWork (T.does work.now) (DoesNew config))
        R.remaining W.contents E.contents console.old console.new result }
{
    match tables::open_in_memory(rt.alloc(), store_dir(&config)) {
        Ok(tables) => work_with(rt, config, tables, work, console),
        Err(failure) => print_reply(
            rt.alloc(),
            store_dir(&config),
            Reply::Failed(failure),
            console.output,
            console.errors,
        ),
    }
}

/// Does some work with the store that an opening gave, or prints why it gave none.
fn over_opened<
    S: Alter + Drop + Close<Connection<S>>,
    D: Disk + Drop,
    T: Work,
    R: Read,
    W: Write,
    E: Write,
>(
    rt: &HostRuntime,
    opened: Result<Tables<S>, Unopened<S, D>>,
    config: Config,
    work: &T,
    console: &mut Console<'_, '_, '_, R, W, E>,
) -> u8
    requires { IfOk opened (λ t. t.dir ≡ config.store_dir) }
    ensures { AnswersOn (T.most work.now)
        (DoesWork (T.does work.now) (DoesOpening S.Store opened config))
        R.remaining W.contents E.contents console.old console.new result }
{
    match opened {
        Ok(tables) => work_with(rt, config, tables, work, console),
        Err(unopened) => refuse_file(
            rt.alloc(),
            store_dir(&config),
            unopened.cause(),
            console.output,
            console.errors,
        ),
    }
}

/// Does some work with the store that an opening of files gave, or prints why it gave none. It is a function of its
/// own, so that the prover looks up how any files are closed, and not those of a start.
fn over_files<D: Disk + Drop, T: Work, R: Read, W: Write, E: Write>(
    rt: &HostRuntime,
    opened: Result<Tables<FileStore<D>>, Unopened<FileStore<D>, D>>,
    config: Config,
    work: &T,
    console: &mut Console<'_, '_, '_, R, W, E>,
) -> u8
    requires { IfOk opened (λ t. t.dir ≡ config.store_dir) }
    ensures { AnswersOn (T.most work.now)
        (DoesWork (T.does work.now) (DoesOpening over_files opened config))
        R.remaining W.contents E.contents console.old console.new result }
{
    over_opened(rt, opened, config, work, console)
}

/// Does some work with the store of the database file at a path, which is made if it is missing. `:memory:` and
/// `file:..` name no file, and are refused. `start` is ghost: what a theorem assumes of the file.
fn in_file<F: Start, T: Work, R: Read, W: Write, E: Write>(
    rt: &HostRuntime,
    start: F,
    path: &str,
    config: Config,
    work: &T,
    console: &mut Console<'_, '_, '_, R, W, E>,
) -> u8
    ensures { AnswersOn (T.most work.now)
        (DoesWork (T.does work.now) (DoesAtPath (DoesFile F.Start ⟦<FileFrom<F> as Disk>⟧) path.now config))
        R.remaining W.contents E.contents console.old console.new result }
{
    let opened = tables::open(rt, path, store_dir(&config), start);
    over_files(rt, opened, config, work, console)
}

/// Does some work with the store of a database file, or with one in memory if no file is named.
#[tactic(auto, unfolding(crate::specs::Works::DoesWith))]
pub(crate) fn with_tables<F: Start, T: Work, R: Read, W: Write, E: Write>(
    rt: &HostRuntime,
    start: F,
    db: Option<&str>,
    config: Config,
    work: &T,
    console: &mut Console<'_, '_, '_, R, W, E>,
) -> u8
    ensures { AnswersOn (T.most work.now)
        (DoesWork (T.does work.now)
        (DoesWith (DoesFile F.Start ⟦<FileFrom<F> as Disk>⟧) (optional_text db.entry) config))
        R.remaining W.contents E.contents console.old console.new result }
{
    match db {
        Some(path) => in_file(rt, start, path, config, work, console),
        None => in_memory(rt, config, work, console),
    }
}
