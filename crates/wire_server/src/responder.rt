//! What answers the messages of a connection.
ghost use Rattle.std.specs.Prelude.{ℕ, List, IfOk};
ghost use Rattle.httparse.specs.Grammar.{RequestHead};
ghost use Rattle.wire_server.specs.Heads.{Holds};
ghost use Rattle.wire_server.specs.Responses.{Replied};
ghost use Rattle.wire_server.specs.Answers.{Answered, IsBegun};

use crate::head::Head;
use crate::keeper::Keeper;
use crate::response::Response;
use std::alloc::AllocError;

/// Answers messages, one after another, from a state that it changes.
pub trait Responder<T> {
    /// How a message is answered once its body has arrived, as its head decides.
    type Course: Drop;

    /// The keeper of a body as it arrives.
    type Body: Keeper + Drop;

    /// What a head and a body may be answered with from a state, and the state afterwards.
    ghost answers: { T → RequestHead → List ℕ → Replied → T → Type 0 };

    /// A head decides this from a state.
    ghost decides: { T → RequestHead → Self.Course → Type 0 };

    /// The decision by the head of a message, which is a prefix of `held`. The body, of `size` bytes, hasn't arrived
    /// yet. A message that is accepted has its course, and a keeper that has no bytes yet.
    ///
    /// # Errors
    ///
    /// Memory was refused.
    fn begin(
        &self,
        state: &T,
        held: &[u8],
        head: &Head,
        size: usize,
    ) -> Result<Begun<(Self::Course, Self::Body)>, AllocError>
        requires { (h : RequestHead) × Holds held.now head.now h }
        ensures { (h : RequestHead) → Holds held.now head.now h
            → IfOk result (IsBegun answers decides Self.Body.represents state.now h) };

    /// The response to a message whose head is a prefix of `held` and whose whole body has arrived. `body` is what was
    /// kept for it. If memory is refused, the message wasn't answered, or was answered and the response is dropped.
    fn answer(
        &self,
        state: &mut T,
        held: &[u8],
        head: &Head,
        course: Self::Course,
        body: Self::Body,
    ) -> Result<Response, AllocError>
        requires { (h : RequestHead) × Holds held.now head.now h × decides state.old h course }
        ensures { (h : RequestHead) (all : List ℕ) → Holds held.now head.now h → decides state.old h course
            → Self.Body.represents body all
            → Answered answers state.old h all result state.new };
}

/// What the head of a message decides.
#[derive(Drop)]
pub enum Begun<T> {
    /// The message is answered by this once its body has arrived.
    Accepted(T),
    /// The response, whatever the body is. The body is dropped.
    Refused(Response),
}
