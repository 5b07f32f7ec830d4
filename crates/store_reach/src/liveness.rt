//! The live and the dead paths.

ghost use Rattle.std.specs.Prelude.{◌≡◌, Bool, IfOk, filter, is_some, length, map};
ghost use Rattle.std.specs.List.{range_with_len};
ghost use Rattle.std.specs.FinMap as finite;
ghost use Rattle.live.specs.Arguments.{rows_view};
ghost use Rattle.live.specs.Keeping.{keep_view};
ghost use Rattle.live.specs.Marks.{first_of};
ghost use Rattle.live.specs.Numbering.{paths_of};
ghost use Rattle.model.specs.World.{World, Path};
ghost use Rattle.tables_outline.specs.Outline.{outline_of};
ghost use Rattle.model.specs.Liveness as spec;
ghost use Rattle.store_reach.specs.Linked.{is_wanted, lives_in};

use crate::graph::{RootedGraph, RootedOutline};
use live::{Keep, Marks, Row};
use paths::StorePath;
use policy::{Config, keep_derivations, keep_outputs};
use std::alloc::{AllocError, Global};
use tables_outline::Outline;

/// What live objects keep alive in addition to their references, by the configuration.
pub(crate) fn keep_of(config: &Config) -> Keep
    ensures { keep_view result ≡ spec.keep_of config.now }
{
    Keep {
        outputs: keep_outputs(config),
        derivations: keep_derivations(config),
    }
}

/// For each row whether it lives.
fn flags(alloc: Global, count: usize, marks: &Marks) -> Result<Vec<bool>, AllocError>
    requires { length marks.now.first ≡ count }
    ensures { IfOk result (λ v. v.items ≡ map (λ i. is_some (first_of marks.now i)) (range_with_len 0 count)) }
{
    let mut flags = Vec::new(alloc);
    for place in 0..count {
        flags.push(marks.first_root(place).is_some())?;
    }
    Ok(flags)
}

/// For each valid path whether it lives, in the order of paths.
fn lives(alloc: Global, config: &Config, graph: &RootedGraph) -> Result<Vec<bool>, AllocError>
    ensures { IfOk result
        (λ v. v.items
        ≡ map (lives_in config.now graph.now.outline.now) (finite.keys graph.now.outline.now.objects)) }
{
    let marks = graph.marks(alloc, keep_of(config))?;
    flags(alloc, graph.rows.len(), &marks)
}

fn is_wanted(lives: bool, wanted: bool) -> bool
    ensures { result ≡ is_wanted wanted lives }
{
    if wanted { lives } else { !lives }
}

/// The paths of the rows that live, or of those that don't.
fn chosen(
    alloc: Global,
    rows: &[Row],
    lives: &[bool],
    wanted: bool,
) -> Result<Vec<StorePath>, AllocError>
    requires { length lives.now ≡ length rows.now }
    ensures { IfOk result
        (λ v. (test : Path → Bool) → lives.now ≡ map test (paths_of (rows_view rows.now))
        → v.items ≡ filter (λ p. is_wanted wanted (test p)) (paths_of (rows_view rows.now))) }
{
    let mut chosen = Vec::new(alloc);
    for place in 0..rows.len() {
        if is_wanted(lives[place], wanted) {
            chosen.push(rows[place].path.clone()?)?;
        }
    }
    Ok(chosen)
}

/// The paths that live, or those that don't, in order.
fn paths_by_life(
    alloc: Global,
    config: &Config,
    outline: &Outline,
    wanted: bool,
) -> Result<Vec<StorePath>, AllocError>
    ensures { IfOk result
        (λ v. v.items
        ≡ filter (λ p. is_wanted wanted (lives_in config.now outline.now p)) (finite.keys outline.now.objects)) }
{
    let all = RootedOutline::new(alloc, outline)?;
    let graph = RootedGraph::new(alloc, &all)?;
    let lives = lives(alloc, config, &graph)?;
    chosen(alloc, &graph.rows, &lives, wanted)
}

/// The paths that live and those that are dead, each in order.
pub fn live_and_dead(
    alloc: Global,
    config: &Config,
    outline: &Outline,
) -> Result<(Vec<StorePath>, Vec<StorePath>), AllocError>
    ensures live { IfOk result
        (λ p. (w : World) → outline_of w ≡ outline.now → p.0.items ≡ spec.live_paths config.now w) }
    ensures dead { IfOk result
        (λ p. (w : World) → outline_of w ≡ outline.now → p.1.items ≡ spec.dead_paths config.now w) }
{
    let all = RootedOutline::new(alloc, outline)?;
    let graph = RootedGraph::new(alloc, &all)?;
    let lives = lives(alloc, config, &graph)?;
    let live = chosen(alloc, &graph.rows, &lives, true)?;
    let dead = chosen(alloc, &graph.rows, &lives, false)?;
    Ok((live, dead))
}

/// The paths that live, in order.
pub fn live_paths(
    alloc: Global,
    config: &Config,
    outline: &Outline,
) -> Result<Vec<StorePath>, AllocError>
    ensures { IfOk result (λ v. (w : World) → outline_of w ≡ outline.now → v.items ≡ spec.live_paths config.now w) }
{
    paths_by_life(alloc, config, outline, true)
}

/// The paths that are dead, in order.
pub fn dead_paths(
    alloc: Global,
    config: &Config,
    outline: &Outline,
) -> Result<Vec<StorePath>, AllocError>
    ensures { IfOk result (λ v. (w : World) → outline_of w ≡ outline.now → v.items ≡ spec.dead_paths config.now w) }
{
    paths_by_life(alloc, config, outline, false)
}
