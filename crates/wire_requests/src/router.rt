//! A router with all routes of the table.
ghost use Rattle.std.specs.Prelude.{◌≡◌, [], true, IfOk, IfSome, OnOk, map, option_map};
ghost use Rattle.matchit.specs.Route.{parse_route};
ghost use Rattle.matchit.specs.Router.{RouteOf};
ghost use Rattle.matchit.specs.Rows.{RowsOf};
ghost use Rattle.wire_requests.specs.declared.requests.Requests.{Requests as RequestsOf};
ghost use Rattle.wire_requests.specs.Parameters.{AreParametersOf};
ghost use Rattle.wire_requests.specs.Rows.{AreRows, AddsRow, can_add, can_add_all, row_of, rows as all_rows, text_of};
ghost use Rattle.wire_requests.specs.Table.{requests_of};

use crate::kind::rows;
use crate::parameters::Parameters;
use crate::requests::Requests;
use matchit::{InsertError, Router};
use std::alloc::{AllocError, Global};
use std::marker::Model;

/// The error of adding a valid route that conflicts with no other: out of memory.
fn no_conflict(fault: InsertError) -> AllocError
    requires { fault ≡ InsertError.OutOfMemory }
{
    match fault {
        InsertError::OutOfMemory => AllocError,
        _ => unreachable!(),
    }
}

/// Adds a valid route that conflicts with no other. The only error is out of memory.
fn add(router: &mut Router<Requests>, route: &str, requests: Requests) -> Result<(), AllocError>
    requires { (rows : RowsOf (RouteOf RequestsOf)) × AreRows router.old rows
        × (can_add (parse_route route.now) rows ≡ true) }
    ensures { OnOk result (AddsRow route.now requests router.old router.new) }
{
    match router.insert(route, requests) {
        Ok(()) => Ok(()),
        Err(fault) => Err(no_conflict(fault)),
    }
}

/// A router with these routes, none of which conflicts with another.
fn router_of(alloc: Global, rows: &[(&str, Requests)]) -> Result<Router<Requests>, AllocError>
    requires { can_add_all [] (map text_of rows.now) ≡ true }
    ensures { IfOk result (λ router. AreRows router (map row_of (map text_of rows.now))) }
{
    let mut router = Router::new(alloc);
    for row in rows {
        add(&mut router, row.0, row.1)?;
    }
    Ok(router)
}

/// A router with each route of the table.
fn make_router(alloc: Global) -> Result<Router<Requests>, AllocError>
    ensures { IfOk result (λ router. AreRows router all_rows) }
{
    router_of(alloc, rows())
}

/// The requests of a target's route, and the values of the route's parameters in the target.
#[derive(Drop)]
pub struct Found {
    pub requests: Requests,
    pub parameters: Parameters,
}

/// The routes of the server.
#[derive(Drop)]
pub struct Routes {
    router: Router<Requests>,
}

impl Model for Routes {
    ghost use Rattle.matchit.specs.Rows.{RowsOf};
    ghost use Rattle.matchit.specs.Router.{RouteOf};
    ghost use Rattle.wire_requests.specs.Rows.{AreRows, rows as all_rows};
    ghost use Rattle.wire_requests.specs.declared.requests.Requests.{Requests as RequestsOf};

    ghost Value = { RowsOf (RouteOf RequestsOf) };

    ghost view = { λ r. r.router };

    ghost invariant = { λ r. AreRows r.router all_rows };
}

impl Routes {
    /// The routes of the table. The only error is out of memory.
    pub fn new(alloc: Global) -> Result<Routes, AllocError> {
        Ok(Routes {
            router: make_router(alloc)?,
        })
    }

    /// The route that matches a whole target, with the target's parameters. `None` if no route matches.
    ///
    /// # Errors
    ///
    /// Memory was refused for the parameters.
    pub fn find(&self, alloc: Global, target: &str) -> Result<Option<Found>, AllocError>
        ensures requests { IfOk result (λ found. option_map (λ f. f.requests) found ≡ requests_of target.now) }
        ensures parameters { IfOk result (λ found. IfSome found (λ f.
            AreParametersOf f.requests target.now f.parameters)) }
    {
        match self.router.at(target) {
            Ok(found) => {
                let requests = *found.value;
                let parameters = Parameters::of(alloc, &found.params)?;
                Ok(Some(Found {
                    requests,
                    parameters,
                }))
            }
            Err(_) => Ok(None),
        }
    }
}
