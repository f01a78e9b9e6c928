//! The commands that enter something into the records: what each says, the shape that each has, and when two are the
//! same.
//!
//! # What is promised
//!
//! - A command is made exactly where it has its shape, want of memory aside, with the document and the body handed in:
//!   `Command::make`: `made`, `shaped`, `bad_shape`.
//! - Want of memory comes for a sector alone, whose document needs a text: `Command::make`, `Command::sector`:
//!   `memory`.
//! - A sector makes its own document: `Command::sector`: `made`, `bad_shape`.
//! - A command shows what was handed in, and its copy is equal: `doc`, `body`, `copy`, `added_aircraft`, `positions`,
//!   `added_component`, `loaded_programme`, `tasks`, `stated_opening`, `flown_sector`, `fitting`, `removal`, `release`,
//!   `lines`, `deferral`, `extension`.
//! - A programme has a revision of at most 1,000,000, and tasks of their shape; a release has at most 20 lines; a
//!   category states at most 365 days, and an extension has at most 120: `Command::loaded_programme`: `bounded`;
//!   `Command::tasks`: `shape`; `Command::lines`: `few`; `Command::deferral`: `shape`; `Command::extension`: `bounded`.
//! - Two commands are the same exactly where document and contents are equal: `Command::is_same`: `test`, `equal`.

pub mod aircraft;
pub mod body;
pub mod command;
pub mod component;
pub mod deferral;
mod document;
pub mod fitting;
pub mod item;
mod of_kind;
pub mod opening;
pub mod programme;
pub mod programme_shape;
pub mod release;
pub mod said;
pub mod sector;
pub mod shape;

pub use aircraft::Aircraft;
pub use body::Body;
pub use command::{Command, MakeFault};
pub use component::Component;
pub use deferral::{Deferral, Extension};
pub use document::is_of_log;
pub use fitting::{Fitting, Removal};
pub use item::Item;
pub use opening::Opening;
pub use programme::{Applies, Programme, Task};
pub use release::{Line, Place, Release};
pub use said::Said;
pub use sector::Sector;
