//! The seven routes: the places that paths name, which method each takes, and the parts of its path.
//!
//! The place of a path is what `matchit` says. The parts of the path are what stands between its slashes, since the
//! parameters of `matchit` are exact only for parts that are cut at the ends of characters, of which it has no lemma.
//! Nothing is decoded, so a document that has a slash or a question mark can't be sent.
ghost use Rattle.std.specs.Prelude.{◌≡◌};

/// What a path is about.
#[derive(Clone, Copy, Debug, PartialEq, Eq)]
pub enum Place {
    Entries,
    Programme,
    Sectors,
    Due,
    Limits,
    Forecast,
    Life,
}

/// A place with the parts of its path, as they stand in the target.
#[derive(Clone, Copy, Debug, PartialEq, Eq)]
pub enum Route<'a> {
    Entries,
    Programme {
        doc: &'a str,
    },
    Sectors,
    Due {
        tail: &'a str,
        day: &'a str,
    },
    Limits {
        tail: &'a str,
        day: &'a str,
    },
    Forecast {
        tail: &'a str,
        day: &'a str,
        days: &'a str,
        minutes: &'a str,
        cycles: &'a str,
    },
    Life {
        tail: &'a str,
    },
}

/// Why a method and a target have no route.
#[derive(Clone, Copy, Debug, PartialEq, Eq)]
pub enum NoRoute {
    /// The allocator had no memory.
    Memory,
    /// No path is like this one.
    NotFound,
    /// The path takes another method: POST, or else GET.
    WrongMethod { allow_post: bool },
}

impl Place {
    ghost use Rattle.mx_http.specs.request.Routes.{takes_post, method_of};

    /// Whether the place takes POST, or else GET.
    pub fn takes_post(self) -> bool
        ensures { result ≡ takes_post self }
    {
        matches!(self, Place::Entries | Place::Programme | Place::Sectors)
    }

    pub(crate) fn method(self) -> &'static str
        ensures { result.now ≡ method_of self }
    {
        if self.takes_post() { "POST" } else { "GET" }
    }
}

impl<'a> Route<'a> {
    ghost use Rattle.mx_http.specs.request.Routes.{asked};

    /// The place.
    pub fn place(self) -> Place
        ensures { result ≡ (asked self.entry).0 }
    {
        match self {
            Route::Entries => Place::Entries,
            Route::Programme { .. } => Place::Programme,
            Route::Sectors => Place::Sectors,
            Route::Due { .. } => Place::Due,
            Route::Limits { .. } => Place::Limits,
            Route::Forecast { .. } => Place::Forecast,
            Route::Life { .. } => Place::Life,
        }
    }
}
