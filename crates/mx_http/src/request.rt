//! A request over HTTP as bytes: where its head ends, what it asks for, its body, and the bytes of a response. One
//! request a connection; nothing here asks an office.
//!
//! # What is promised
//!
//! - A request's head ends at the first CR LF CR LF that lies wholly within the first 8,192 bytes; else it is too
//!   large, or the input ended: `head_of`: `exact`, `within`.
//! - What is read of an input tells its head; at most 8,192 bytes are taken, and no head ends before the last 4,096 of
//!   what is answered: `read_head`: `enough`, `within`, `takes`, `prompt`.
//! - The body is the bytes behind the head, as many as its length, or there is none where the input ends sooner; no
//!   more is taken: `read_body`: `body`, `size`, `takes`.
//! - A head asks for one route and one length, or is rejected for one reason: by the grammar of HTTP/1.0 and HTTP/1.1,
//!   its target in UTF-8, its fields at most 64, the path's route, the method, then the fields that say the length:
//!   `asked_of`; `laws::a_head_asks_for_one`.
//! - A path's route and the parts of the path are those of the seven patterns, want of memory aside: `route`: `ok`,
//!   `err`.
//! - The bytes of a response are the line of its status, its fields, an empty line and its body; a rejection has the
//!   status, the method and the body of its kind: `response_bytes`; `Rejection::response`, `status`, `body`, `allows`.

pub mod asked;
pub mod body;
pub mod finding;
pub mod head;
pub mod input;
pub mod laws;
pub mod length;
pub mod rejection;
pub mod response;
pub mod routes;

pub use asked::asked_of;
pub use body::read_body;
pub use finding::route;
pub use head::{head_of, read_head};
pub use input::InputFault;
pub use length::MOST_BODY;
pub use rejection::Rejection;
pub use response::response_bytes;
pub use routes::{NoRoute, Place, Route};
