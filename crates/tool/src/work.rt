//! What a command line does with a store.
ghost use Rattle.std.specs.Prelude.{◌≡◌, ℕ, Option, true};
ghost use Rattle.tool.specs.Streams.{AnswersOn};
ghost use Rattle.tool.specs.Works.{DoesAt, DoesFrom, DoesWork, KeepsWorlds, OnStore};

use crate::close::end;
use crate::console::Console;
use policy::Config;
use sqlite::{Alter, Connection};
use std::alloc::Global;
use std::io::{Read, Write};
use std::rt::HostRuntime;
use store::Store;
use tables::{Close, Tables};

/// What came of some work with a store.
#[derive(Drop)]
pub(crate) struct Worked {
    /// The exit status.
    pub(crate) status: u8,
    /// Whether the store was only read, so that nothing has to be brought into its file.
    pub(crate) reads: bool,
}

/// What a command line does with a store.
pub(crate) trait Work {
    // What is done with the store. There is one thing, since the subcommand of a call makes a request.
    ghost does: { Self → Option OnStore };

    // The greatest number of bytes that are read of the input, if there is one.
    ghost most: { Self → Option ℕ };

    /// Whether many questions are asked of the store.
    const ASKS_MUCH: bool;

    /// Does the work with a store. The store is that after the last step of the work.
    fn perform<S: Alter, R: Read, W: Write, E: Write>(
        &self,
        rt: &HostRuntime,
        store: &mut Store<S>,
        console: &mut Console<'_, '_, '_, R, W, E>,
    ) -> Worked
        ensures answered { AnswersOn (most self.now)
            (DoesWork (does self.now) (λ d shown. DoesAt S.Store d shown store.old store.new))
            R.remaining W.contents E.contents console.old console.new result.status }
        // A store that may be left unclosed describes what it did before.
        ensures unchanged { result.reads ≡ true → KeepsWorlds S.Store store.old store.new };
}

/// The store of these tables for some work. Where much is asked of it, it keeps its links turned round, so that a
/// question about one path doesn't read all objects. If memory is refused for the links, it does.
fn store_for<S: Alter, T: Work>(alloc: Global, config: Config, tables: Tables<S>) -> Store<S>
    requires { tables.dir ≡ config.store_dir }
    ensures { result ≡ record { tables = tables; settings = config } }
{
    let mut tables = tables;
    if T::ASKS_MUCH {
        tables.turn_links();
    }
    Store::new(alloc, config, tables)
}

/// Does some work with the store of these tables, and closes it.
pub(crate) fn work_with<
    S: Alter + Drop + Close<Connection<S>>,
    T: Work,
    R: Read,
    W: Write,
    E: Write,
>(
    rt: &HostRuntime,
    config: Config,
    tables: Tables<S>,
    work: &T,
    console: &mut Console<'_, '_, '_, R, W, E>,
) -> u8
    requires { tables.dir ≡ config.store_dir }
    ensures { AnswersOn (T.most work.now)
        (DoesWork (T.does work.now) (DoesFrom S.Store config tables))
        R.remaining W.contents E.contents console.old console.new result }
{
    let mut store = store_for::<S, T>(rt.alloc(), config, tables);
    let worked = work.perform(rt, &mut store, console);
    end(store.release().release(), worked.reads);
    worked.status
}
