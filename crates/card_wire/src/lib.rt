//! Requests of HTTP/1.0 and 1.1 as they come over a connection: the head, what it asks for, and the body; and requests and
//! replies as JSON.
#![tactic(auto)]

mod account_name;
mod answer;
mod body;
mod byte;
mod field;
mod framing;
mod head;
mod heading;
mod json_body;
mod path;
mod place;
mod route;
mod routes;
mod sending;
mod spelling;
mod stop;
mod wanted;

pub use account_name::AccountName;
pub use answer::{member_text, ok_text, refused_text};
pub use body::{BODY_LIMIT, read_body};
pub use field::{Field, fields_of};
pub use head::Head;
pub use heading::{FIELD_LIMIT, HEAD_LIMIT, HeadEnd, read_head};
pub use json_body::{BodyFault, read_json_body};
pub use path::path_of;
pub use route::Route;
pub use routes::Routes;
pub use sending::send;
pub use stop::Stop;
pub use wanted::{Early, Wanted, judge};
