//! What a request is answered before any step of the store: `begin` gives the first refusal that holds, or what its route
//! goes on with (`specs/Begun.antt`). The routes and the pages that need none are here too.
#![tactic(auto)]

mod begun;
mod context;
mod csrf_view;
mod field_limit;
mod fields;
mod host_check;
mod page;
mod refusal;
mod request_cookie;
mod route;
mod secret;
mod settings;
mod slash_target;
#[cfg(test)]
mod tests;

pub use crate::begun::{Begun, begin};
pub use crate::context::Context;
pub use crate::fields::last_value;
pub use crate::page::{
    Delivery, delivery_of, fault_page, full_page, memory_response, plain_page, store_page,
};
pub use crate::refusal::{Refusal, refusal_page};
pub use crate::route::{Methods, Route, methods_of, route_of};
pub use crate::secret::Secret;
pub use crate::settings::Settings;
