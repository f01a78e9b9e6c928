//! What has a life of its own.

use mx_base::{Serial, Tail};

/// What is flown and maintained: an airframe, named by the registration of its aircraft, or a component,
/// named by its serial number.
#[derive(Clone, Copy, Debug, PartialEq, Eq)]
pub enum Item {
    Airframe(Tail),
    Component(Serial),
}
