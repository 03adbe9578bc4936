// What a request of HTTP asks of the desk: its target, its method and its fields.
#![tactic(auto)]

mod asking;
mod examples;
mod faults;
mod fields;
mod laws;
mod parts;
mod places;
mod targets;
mod words;

pub use asking::asked;
pub use examples::{worked_fields, worked_routes, worked_targets};
pub use faults::{AskFault, RouteFault};
pub use laws::route_laws;
pub use places::{Asked, Look, Routes};
