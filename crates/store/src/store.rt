//! The store: its tables, its settings, and `call`, the only way to use them.

ghost use Rattle.std.specs.Prelude.{◌≡◌, ◌≤◌, Err, IfOk, IsTrue, [], false, option_map, vec_capacity, vec_len};
ghost use Rattle.std.specs.List.{list_any};
ghost use Rattle.sqlite.specs.State.{HasCleanDisk, Survives};
ghost use Rattle.sqlite.specs.Held.{state};
ghost use Rattle.policy.specs.Caller.{Caller as TheCaller};
ghost use Rattle.policy.specs.Class.{class_of};
ghost use Rattle.model.specs.World.{World};
ghost use Rattle.model.specs.Reply.{IsDone};
ghost use Rattle.model.specs.Liveness.{lives};
ghost use Rattle.model.specs.Verdict.{named_in};
ghost use Rattle.tables_writes.specs.TablesValue.{HasWorld};
ghost use Rattle.store_reach.specs.Found.{deletes};
ghost use Rattle.store_promises.specs.Causes.{HasCause};
ghost use Rattle.store_promises.specs.Disk.{StepOver};
ghost use Rattle.store.specs.Forbidden.{IsForbidden, denial_by_rules};
ghost use Rattle.store_promises.specs.Durability.{LeavesOthers, StaysDurable};
ghost use Rattle.store_promises.specs.Crashes.{LeavesDone};
ghost use Rattle.store_promises.specs.Meets.{IsMet};
ghost use Rattle.store_types.specs.Spent.{is_spent, spent_reply};
ghost use Rattle.store_types.specs.View.{request_view, reply_view};
ghost use Rattle.store_types.specs.declared.replies.Stop.TheVariants.{Failed as failed};
ghost use Rattle.tables_sql.specs.declared.failure.Failed.TheVariants.{Memory as memory};
ghost use Rattle.store.specs.View.{IsStill};

use crate::dispatch::{act, reply};
use policy::{Caller, Class, Config, Rule, class, decide};
use sqlite::Alter;
use std::alloc::{AllocError, Global};
use std::marker::Model;
use store_reach::deletion::denial;
use store_types::{Answer, Reply, Request, Stop, operation};
use tables_sql::failure::Failed;
use tables_writes::Tables;

/// A store. Contracts see it as its tables and its settings.
pub struct Store<S: Alter> {
    alloc: Global,
    config: Config,
    tables: Tables<S>,
}

impl<S: Alter> Model for Store<S> {
    ghost use Rattle.std.specs.Prelude.{◌≡◌};
    ghost use Rattle.store.specs.View.{StoreView, store_view_code};

    ghost Value = { StoreView S };

    ghost coded = { store_view_code S.code };

    ghost view = { λ t. record { tables = t.tables; settings = t.config } };

    ghost invariant = { λ t. t.tables.dir ≡ t.config.store_dir };
}

impl<S: Alter> Store<S> {
    /// The store of these tables, under these settings. Tables and settings have the same store directory.
    ///
    /// ```rust
    /// use policy::{Config, keep_outputs, store_dir};
    /// use store::Store;
    /// use tables::Tables;
    ///
    /// let config = Config::from_toml(alloc, b"keep-outputs = true\n")?;
    /// let tables = tables::open_in_memory(alloc, store_dir(&config))?;
    /// let store = Store::new(alloc, config, tables);
    /// let keeps = keep_outputs(store.config());
    /// drop(store.release().release());
    /// assert!(rt; keeps);
    /// ```
    pub fn new(alloc: Global, config: Config, tables: Tables<S>) -> Store<S>
        requires { tables.dir ≡ config.store_dir }
        ensures { result ≡ record { tables = tables; settings = config } }
    {
        Store {
            alloc,
            config,
            tables,
        }
    }

    /// The settings of the store.
    ///
    /// ```rust
    /// assert_eq!(rt; store_dir(store.config()).as_str(), "/nix/store");
    /// ```
    pub fn config(&self) -> &Config
        ensures { result.now ≡ self.now.settings }
    {
        &self.config
    }

    /// Drops the settings of the store and returns the tables.
    ///
    /// ```rust
    /// use policy::{Config, store_dir};
    /// use store::Store;
    /// use tables::Tables;
    ///
    /// let config = Config::from_toml(alloc, b"")?;
    /// let tables = tables::open_in_memory(alloc, store_dir(&config))?;
    /// let conn = Store::new(alloc, config, tables).release().release();
    /// assert!(rt; conn.is_autocommit());
    /// ```
    pub fn release(self) -> Tables<S>
        ensures { result ≡ self.tables }
    {
        let Store {
            alloc: _alloc,
            config: _config,
            tables,
        } = self;
        tables
    }

    /// An empty vector with room for `count` replies.
    pub(crate) fn room(&self, count: usize) -> Result<Vec<Reply>, AllocError>
        ensures empty { IfOk result (λ v. v.items ≡ []) }
        ensures len { IfOk result (λ v. vec_len v ≡ 0) }
        ensures capacity { IfOk result (λ v. count ≤ vec_capacity v) }
    {
        Vec::with_capacity(self.alloc, count)
    }

    /// The denial by the first rule that forbids a request of a caller of a class, or out of memory while it is made.
    /// `None` if no rule forbids the request.
    fn forbidden(&self, class: Class, caller: &Caller, request: &Request) -> Option<Reply>
        ensures reported { class ≡ class_of self.now.settings caller.now → (w : World)
            → HasWorld S.Store self.now.tables w
            → IsForbidden self.now.settings w caller.now (request_view request.now) (option_map reply_view result) }
        // What deletes nothing by name is forbidden by the rules alone.
        ensures ruled { class ≡ class_of self.now.settings caller.now → deletes (request_view request.now) ≡ false
            → option_map reply_view result ≡ denial_by_rules self.now.settings caller.now (request_view request.now) }
    {
        if let Some(rule) = decide(class, caller, &operation(request)) {
            return Some(Reply::Denied(rule, None));
        }
        match denial(
            self.alloc,
            &self.config,
            class,
            self.tables.outline(),
            request,
        ) {
            Ok(None) => None,
            Ok(Some(root)) => Some(Reply::Denied(Rule::Live, Some(root))),
            Err(_) => Some(Reply::Failed(Failed::Memory)),
        }
    }

    /// Does a request, which no rule forbids, of a caller of a class.
    fn act(&mut self, class: Class, request: Request) -> Result<Answer, Stop>
        requires { (w : World) → HasWorld S.Store self.old.tables w
            → list_any (lives self.old.settings w) (named_in (request_view request)) ≡ false }
        ensures settings { self.new.settings ≡ self.old.settings }
        ensures met { (c : TheCaller) → class ≡ class_of self.old.settings c
            → IsMet S.Store self.old.settings c (request_view request) result self.old.tables self.new.tables }
        ensures spent { IsTrue (is_spent request)
            → (result ≡ Err (failed memory)) × (self.new.tables ≡ self.old.tables) }
    {
        act(self.alloc, &self.config, class, &mut self.tables, request)
    }

    /// Does a caller's request, or returns why not: the first rule that forbids the request, or else the first of its
    /// tests that fails. A request that isn't done changes nothing, and neither a denial nor a refusal touches the
    /// tables. A call fails only if no rule other than `Live` forbids it.
    ///
    /// ```rust
    /// use paths::Name;
    /// use store::{Answer, Reply, Request};
    ///
    /// let name = Name::parse(alloc, "myfile")?;
    /// let contents = Vec::from_slice(alloc, b"mycontent\n")?;
    /// let reply = store.call(caller, Request::AddText { name, refs: Vec::new(alloc), contents });
    /// let Reply::Done(Answer::Path(path)) = reply else {
    ///     return Err(Fail::new("not added"));
    /// };
    /// assert_eq!(rt; path.as_str(), "a0d1zlpv81nsfbam8ay3i7snrc0sgsvr-myfile");
    /// ```
    pub fn call(&mut self, caller: &Caller, request: Request) -> Reply
        ensures settings { self.new.settings ≡ self.old.settings }
        // From each world that the tables described, a step to one that they describe now; an answer from the disk is
        // right if the disk is clean.
        ensures step { (w : World) → HasWorld S.Store self.old.tables w → (next : World)
            × StepOver (HasCleanDisk (state S.Store self.new.tables.connection))
            self.old.settings w caller.now (request_view request) (reply_view result) next
            × HasWorld S.Store self.new.tables next }
        // A request whose archive was dropped because memory ran out is denied by a rule, or fails for memory ahead of
        // its tests.
        ensures spent { IsTrue (is_spent request)
            → (reply_view result ≡ spent_reply self.old.settings caller.now (request_view request))
            × (self.new ≡ self.old) }
        // A failure is out of memory; or the request touches the disk and, if the disk is clean, has a reason to fail.
        ensures cause { (w : World) → HasWorld S.Store self.old.tables w
            → HasCause S.Store (request_view request) (reply_view result) self.old.tables self.new.tables }
        ensures still { IsStill (reply_view result) → self.new ≡ self.old }
        // Whatever is replied, a failure too, what other programs have in the database is as it was.
        ensures others { LeavesOthers S.Store self.old.tables self.new.tables }
        ensures stays_durable { IsDone (reply_view result) → StaysDurable S.Store self.old.tables self.new.tables }
        // At any exit a crash leaves what it could leave before, or the tables of the done case; where a rule denies
        // the request or a test of it fails there is none.
        ensures survives { (w : World) → HasWorld S.Store self.old.tables w
            → Survives (state S.Store self.old.tables.connection) (state S.Store self.new.tables.connection)
            (λ db. LeavesDone self.old.tables.dir (state S.Store self.old.tables.connection).now db
            self.old.settings w caller.now (request_view request)) }
    {
        let class = class(self.config(), caller);
        match self.forbidden(class, caller, &request) {
            Some(forbidden) => forbidden,
            None => reply(self.act(class, request)),
        }
    }
}
