//! An office over a database, and its closing.
ghost use Rattle.std.specs.Prelude.{◌≡◌, false};

use sqlite::{Alter, Connection};

/// An office: the tables of one book in a database, and whether a commit is in doubt.
pub struct Office<S: Alter> {
    pub(crate) conn: Connection<S>,
    pub(crate) needs_reopen: bool,
    ghost idle: { conn.in_transaction ≡ false },
}

impl<S: Alter> Office<S> {
    /// The connection, as it stands.
    pub fn close(self) -> Connection<S>
        ensures { result ≡ self.conn }
    {
        let Office {
            conn,
            needs_reopen: _,
        } = self;
        conn
    }

    /// Whether a commit is in doubt, so that the file has to be opened again.
    pub fn needs_reopen(&self) -> bool
        ensures { result ≡ self.now.needs_reopen }
    {
        self.needs_reopen
    }
}
