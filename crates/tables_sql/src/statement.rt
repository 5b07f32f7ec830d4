//! The ways to run a statement inside a transaction.

ghost use Rattle.std.specs.Prelude.{◌≡◌, ◌≢◌, IfErr, OnOk};
ghost use Rattle.sqlite.specs.State.{HasCleanDisk, IsUnchanged};
ghost use Rattle.sqlite.specs.Held.{state};
ghost use Rattle.sqlite.specs.Values.{bound};
ghost use Rattle.sqlite.specs.declared.error.Error.TheVariants.{SqliteFailure};
ghost use Rattle.sqlite.specs.declared.error.ErrorCode.TheVariants.{OperationInterrupted};
ghost use Rattle.tables_sql.specs.Failures.{failure_of, FailsWith, IsWriteFailure, IsDeletionFailure};
ghost use Rattle.tables_sql.specs.Failures.{IsAdditionFailure, without_size};
ghost use Rattle.tables_sql.specs.Statements.{IsInside, StaysInside, Executes};

use crate::failure::Failed;
use sqlite::types::ValueRef;
use sqlite::{Alter, Error, ErrorCode, Transaction};

/// Runs a write.
pub fn run<S: Alter>(
    tx: &mut Transaction<'_, S>,
    text: &str,
    params: &[ValueRef<'_>],
) -> Result<(), Failed>
    requires { IsInside S.Store tx.old.conn }
    ensures { Executes S.Store tx.old.conn tx.new.conn result text.now (bound params.now) IsWriteFailure }
{
    tx.execute(text, params)?;
    Ok(())
}

/// The failure of a write whose row can't be too large: a shut connection alone may name a size, so that is the disk's.
pub fn without_size(failure: Failed) -> Failed
    ensures { result ≡ without_size failure }
{
    match failure {
        Failed::Memory => Failed::Memory,
        Failed::Size | Failed::Disk => Failed::Disk,
    }
}

/// Runs a delete, which fails for no size: it writes no row.
pub fn remove<S: Alter>(
    tx: &mut Transaction<'_, S>,
    text: &str,
    params: &[ValueRef<'_>],
) -> Result<(), Failed>
    requires { IsInside S.Store tx.old.conn }
    ensures { Executes S.Store tx.old.conn tx.new.conn result text.now (bound params.now) IsDeletionFailure }
{
    match run(tx, text, params) {
        Ok(()) => Ok(()),
        Err(failure) => Err(without_size(failure)),
    }
}

/// An error of a query, but that a limit on steps stopped it: that it does on an open connection alone.
fn unless_stopped(error: Error) -> Result<(), Failed>
    ensures stopped { OnOk result (error ≡ SqliteFailure OperationInterrupted) }
    ensures failed { IfErr result (λ f. (f ≡ failure_of error) × (error ≢ SqliteFailure OperationInterrupted)) }
{
    match error {
        Error::SqliteFailure(ErrorCode::OperationInterrupted) => Ok(()),
        _ => Err(Failed::from(error)),
    }
}

/// Succeeds only if no fault has shut the connection, also where the transaction is undone. Nothing changes.
fn ask<S: Alter>(tx: &mut Transaction<'_, S>) -> Result<(), Failed>
    ensures frame { StaysInside S.Store tx.old.conn tx.new.conn result }
    ensures same { HasCleanDisk (state S.Store tx.new.conn.now)
        → OnOk result (IsUnchanged (state S.Store tx.old.conn.now) (state S.Store tx.new.conn.now)) }
    ensures cause { HasCleanDisk (state S.Store tx.new.conn.now)
        → IfErr result (FailsWith (state S.Store tx.old.conn.now) (state S.Store tx.new.conn.now) ⊥ ⊥) }
{
    if let Err(error) = tx.query_all("SELECT 1", &[]) {
        return unless_stopped(error);
    }
    Ok(())
}

/// Runs an insert. A size is reported only if the connection was open: a shut one may name it too.
pub fn add<S: Alter>(
    tx: &mut Transaction<'_, S>,
    text: &str,
    params: &[ValueRef<'_>],
) -> Result<(), Failed>
    requires { IsInside S.Store tx.old.conn }
    ensures { Executes S.Store tx.old.conn tx.new.conn result text.now (bound params.now) IsAdditionFailure }
{
    if let Err(failure) = run(tx, text, params) {
        if let Failed::Size = failure {
            ask(tx)?;
        }
        return Err(failure);
    }
    Ok(())
}
