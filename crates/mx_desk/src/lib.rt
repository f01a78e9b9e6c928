//! The desk: requests over HTTP, one a connection, answered by an office with what the words of the program print; and
//! one connection after the other at a port.
//!
//! # What is promised
//!
//! Of the answer to one request:
//!
//! - Commands, a programme or a log that are handed in are answered with a line for each reply or row, and behind them
//!   the line of the fault that stopped the office, if any did; a question for a list with the list, the refusal, or
//!   the line of that fault: `route_response`: `answered`, `made`.
//! - A text that gives nothing, and a part of a path that can't be read, are answered with 400, and then the office is
//!   as it was; want of memory for reading the body with 503: `route_response`: `answered`, `made`.
//! - The response is of HTTP/1.1 and has no header field, since those that it is to have are written with its bytes:
//!   `route_response`: `answered`, `made`.
//!
//! Of the same, over the tables of a book:
//!
//! - The answer is the book's, and the tables, unless the store failed, are those of the book behind the commands that
//!   were answered; a question leaves the book: `route_response`: `served`.
//! - Whatever the answer, a crash leaves the book behind the first so many of the commands, or with the next one; an
//!   office that goes on rests at a book behind some commands: `route_response`: `crash`, `kept`.
//!
//! Of one connection:
//!
//! - Over a reader of known bytes and a writer of known bytes, exactly the answer to those bytes is written, by their
//!   head, their route and their body; to no byte nothing is, and nothing is asked: `serve_one`: `served`, `answered`.
//! - Where a write fails, a beginning of the answer was written, and the book is that of the answer all the same; where
//!   memory runs out or a read fails nothing was written, and at a failing read the office is as it was: `serve_one`:
//!   `served`, `answered`, `quiet`, `unread`.
//! - Of a crash the same is so as of `route_response`, whatever the reader: `serve_one`: `crash`, `kept`.
//! - Where neither memory ran out nor a read failed, no more is taken of the bytes of a reader than one request: a
//!   front in which no head ends before its last 4,096 bytes, and behind it what its body lacks: `serve_one`: `takes`.
//!
//! Of one connection after the other:
//!
//! - What is appended is the number of connections that there were to serve: `serve_on`: `served`, `stops`. That each is
//!   served, `scripts/check-desk` shows.
//! - Over a book an office that goes on rests at the book behind some commands, and a crash leaves that behind some
//!   commands, or behind these the first so many of one more request; once the office has to be opened again it ends
//!   with `Store`: `serve_on`: `stops`, `ready`, `kept`, `crash`.
#![tactic(auto)]

mod answering;
mod entering;
mod listing;
mod serve;
mod serving;

pub use answering::route_response;
pub use mx_http::request::{NoRoute, Route, route};
pub use mx_http::responses::DeskFault;
pub use mx_jobs as jobs;
pub use serve::serve_one;
pub use serving::serve_on;
