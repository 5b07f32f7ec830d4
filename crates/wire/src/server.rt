//! The server: answers messages from a store.
ghost use Rattle.wire.specs.Answers.{Answers, Admits};
ghost use Rattle.wire_requests.specs.Kept.{Represents};

use crate::admission::{Endpoint, admit};
use crate::replies::{refuse, respond};
use policy::store_dir;
use sqlite::Alter;
use std::alloc::{AllocError, Global};
use store::Store;
use wire_requests::{Body, Routes, read_request};
use wire_server::{Begun, Head, Keeper, Responder, Response};

/// Answers messages from a store, by the table of routes.
#[derive(Drop)]
pub(crate) struct Server {
    alloc: Global,
    routes: Routes,
}

impl Server {
    /// A server with the table of routes. The only error is out of memory.
    pub(crate) fn new(alloc: Global) -> Result<Server, AllocError> {
        Ok(Server {
            alloc,
            routes: Routes::new(alloc)?,
        })
    }
}

impl<S: Alter> Responder<Store<S>> for Server {
    type Course = Endpoint;

    type Body = Arriving;

    ghost answers = { Answers S.Store };

    ghost decides = { Admits };

    fn begin(
        &self,
        store: &Store<S>,
        held: &[u8],
        head: &Head,
        size: usize,
    ) -> Result<Begun<(Endpoint, Arriving)>, AllocError> {
        match admit(self.alloc, &self.routes, store.config(), held, head)? {
            Begun::Accepted(endpoint) => {
                let body = Body::new(self.alloc, endpoint.kind, size);
                Ok(Begun::Accepted((endpoint, Arriving { body })))
            }
            Begun::Refused(response) => Ok(Begun::Refused(response)),
        }
    }

    fn answer(
        &self,
        store: &mut Store<S>,
        _held: &[u8],
        _head: &Head,
        endpoint: Endpoint,
        body: Arriving,
    ) -> Result<Response, AllocError> {
        let Endpoint {
            caller,
            kind,
            parameters,
        } = endpoint;
        let dir = store_dir(store.config());
        match read_request(self.alloc, dir, kind, parameters, body.body) {
            Ok(request) => {
                let reply = store.call(&caller, request);
                respond(self.alloc, store_dir(store.config()), reply)
            }
            Err(fault) => refuse(self.alloc, fault),
        }
    }
}

/// The body of a message, as it arrives.
#[derive(Drop)]
pub(crate) struct Arriving {
    pub body: Body,
}

impl Keeper for Arriving {
    ghost represents = { λ it all. Represents it.body all };

    fn keep(&mut self, piece: &[u8]) -> Result<(), AllocError> {
        self.body.push(piece)
    }
}
