//! Requests over HTTP and their answers, as bytes.
//!
//! - `request`: where a head ends, what it asks for, its body, and the bytes of a response.
//! - `responses`: what a request asks of an office, the status and the bytes that it is answered with, and writing them.
#![tactic(auto)]

pub mod request;
pub mod responses;
