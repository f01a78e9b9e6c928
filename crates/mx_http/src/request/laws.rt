//! Laws of requests. Each function does nothing; its contract is the law, and the checker proves it.
ghost use Rattle.std.specs.Prelude.{◌≡◌, ℕ, List, Result};
ghost use Rattle.mx_http.specs.request.Asked.{AsksFor};
ghost use Rattle.mx_http.specs.request.Routes.{Asked};
ghost use Rattle.mx_http.specs.declared.request.rejection.Rejection.{Rejection};

/// What a head asks for is one.
pub fn a_head_asks_for_one()
    ensures { (bytes : List ℕ) (a b : Result (Asked × ℕ) Rejection)
        → AsksFor bytes a → AsksFor bytes b → a ≡ b }
{}
