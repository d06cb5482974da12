//! Which paths and parameters the server has, and what each method means at a path.
//!
//! ```text
//! route(alloc, Some(Method::Get), "/search/m1?q=swan")   Ok(Route::Read(Read::Search { .. }))
//! route(alloc, Some(Method::Get), "/nowhere")            Err(RouteError::Route)
//! ```
#![tactic(auto)]

pub use commands::{command_of, routes_are_sendable};
pub use kinds::{Read, Route, RouteError, WriteRoute};
pub use routes::route;
pub use target::cut;

mod commands;
mod kinds;
mod paths;
mod query;
mod routes;
mod target;
