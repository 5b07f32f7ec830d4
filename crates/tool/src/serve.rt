//! `serve`: the store of a command line, served over HTTP.
ghost use Rattle.std.specs.Prelude.{Some};
ghost use Rattle.tool_words.specs.Asked.{optional_text};
ghost use Rattle.tool.specs.Answer.{AnswersServing};
ghost use Rattle.tool.specs.Files.{DoesFile};
ghost use Rattle.tool.specs.Requests.{most_served};
ghost use Rattle.tool.specs.Streams.{AnswersOn};
ghost use Rattle.tool.specs.Works.{DoesAt, serves};

use crate::console::Console;
use crate::stores::with_tables;
use crate::work::{Work, Worked};
use sqlite::{Alter, FileFrom, Start};
use std::io::{Read, Write};
use std::rt::HostRuntime;
use store::Store;
use tables::Disk;
use tool_pure::{say, settings};
use tool_words::ServeArguments;
use wire::{serve_port, serve_streams};

/// Serves a store. It is that after the last message that was answered.
fn serve_over<S: Alter, R: Read, W: Write, E: Write>(
    rt: &HostRuntime,
    store: &mut Store<S>,
    arguments: ServeArguments,
    console: &mut Console<'_, '_, '_, R, W, E>,
) -> u8
    ensures { AnswersOn (most_served arguments)
        (λ shown. DoesAt S.Store (serves arguments) shown store.old store.new)
        R.remaining W.contents E.contents console.old console.new result }
{
    match arguments {
        ServeArguments::Streams => serve_streams(
            rt.alloc(),
            store,
            console.input,
            console.output,
            console.errors,
        ),
        ServeArguments::Port(port, connections) => serve_port(
            rt,
            rt.alloc(),
            port,
            connections,
            store,
            console.errors,
        ),
    }
}

/// The serving of a store.
#[derive(Drop)]
pub(crate) struct Serving {
    pub(crate) arguments: ServeArguments,
}

impl Work for Serving {
    ghost does = { λ serving. Some (serves serving.arguments) };

    ghost most = { λ serving. most_served serving.arguments };

    const ASKS_MUCH: bool = true;

    fn perform<S: Alter, R: Read, W: Write, E: Write>(
        &self,
        rt: &HostRuntime,
        store: &mut Store<S>,
        console: &mut Console<'_, '_, '_, R, W, E>,
    ) -> Worked {
        Worked {
            status: serve_over(rt, store, self.arguments, console),
            reads: false,
        }
    }
}

/// Serves a store, by the text of the configuration.
pub(crate) fn serve<F: Start, R: Read, W: Write, E: Write>(
    rt: &HostRuntime,
    start: F,
    config: &[u8],
    db: Option<&str>,
    arguments: ServeArguments,
    console: &mut Console<'_, '_, '_, R, W, E>,
) -> u8
    ensures { AnswersOn (most_served arguments)
        (AnswersServing (DoesFile F.Start ⟦<FileFrom<F> as Disk>⟧) config.now (optional_text db.entry) arguments)
        R.remaining W.contents E.contents console.old console.new result }
{
    match settings(rt.alloc(), config) {
        Ok(config) => {
            let work = Serving { arguments };
            with_tables(rt, start, db, config, &work, console)
        }
        Err(stop) => say(stop, console.errors),
    }
}
