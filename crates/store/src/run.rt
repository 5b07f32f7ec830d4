//! Calls one after another.

ghost use Rattle.std.specs.Prelude.{◌≡◌, IfOk, List, OnErr, map};
ghost use Rattle.sqlite.specs.State.{HasCleanDisk};
ghost use Rattle.sqlite.specs.Held.{state};
ghost use Rattle.model.specs.World.{World};
ghost use Rattle.model.specs.Labels.{AllFailAlike, DifferInLabels};
ghost use Rattle.model.specs.Reply as replied;
ghost use Rattle.model.specs.Step.{Run};
ghost use Rattle.tables_writes.specs.TablesValue.{HasWorld};
ghost use Rattle.store_promises.specs.Disk.{LookAlikeOver};
ghost use Rattle.store.specs.Runs.{RunsFrom};
ghost use Rattle.store_types.specs.Spent.{SpentAreAnswered};
ghost use Rattle.store_types.specs.View.{call_view, reply_view};

use crate::store::Store;
use policy::Caller;
use sqlite::Alter;
use std::alloc::AllocError;
use store_types::{Reply, Request};

impl<S: Alter> Store<S> {
    /// Makes calls one after another, and returns their replies in the same order.
    ///
    /// ```rust
    /// use policy::Caller;
    /// use store::{Reply, Request};
    ///
    /// let mut calls = Vec::new(alloc);
    /// calls.push((Caller::new(alloc, "ann", None)?, Request::List))?;
    /// calls.push((Caller::new(alloc, "bob", None)?, Request::Collect { ignore_liveness: true, max_freed: None }))?;
    /// let replies = store.run(calls)?;
    /// assert!(rt; matches!(replies.as_slice(), [Reply::Done(_), Reply::Denied(_, None)]));
    /// ```
    ///
    /// # Errors
    ///
    /// Memory was refused for the replies. Then no call was made.
    pub fn run(&mut self, calls: Vec<(Caller, Request)>) -> Result<Vec<Reply>, AllocError>
        ensures settings { self.new.settings ≡ self.old.settings }
        // From each world that the tables described before, a run to one that they describe now, in which each root
        // that exists throughout keeps what it reached. What other programs have in the database is as it was.
        ensures runs { IfOk result (λ replies. (w : World) → HasWorld S.Store self.old.tables w
            → RunsFrom S.Store self.old.settings w (map call_view calls.items) (map reply_view replies.items)
            self.old.tables self.new.tables) }
        // No reply to a caller who isn't trusted differs by a runtime label: each run of the same calls from a world
        // that differs in these alone, with the same failures at the same places, has the same replies.
        ensures hides { IfOk result (λ replies. (w v last : World) (others : List replied.Reply)
            → HasWorld S.Store self.old.tables w → DifferInLabels w v
            → Run self.old.settings v (map call_view calls.items) others last
            → AllFailAlike (map reply_view replies.items) others
            → LookAlikeOver (HasCleanDisk (state S.Store self.new.tables.connection))
            self.old.settings (map call_view calls.items) (map reply_view replies.items) others) }
        ensures spent { IfOk result (λ replies.
            SpentAreAnswered self.old.settings calls.items (map reply_view replies.items)) }
        ensures failed { OnErr result (self.new ≡ self.old) }
    {
        let mut replies = self.room(calls.len())?;
        for asked in calls {
            let (caller, request) = asked;
            let reply = self.call(&caller, request);
            replies.push_reserved(reply);
        }
        Ok(replies)
    }
}
