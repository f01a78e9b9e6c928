//! Finding the route of a method and a target.
ghost use Rattle.std.specs.Prelude.{◌≡◌, ◌≢◌, ◌==◌, Ok, Err, IfOk, IfErr};
ghost use Rattle.std.specs.List.{before_first, after_first};
ghost use Rattle.mx_http.specs.request.Routes.{Rows, with_route, desk_routes, place_of, path_of, part, asked, at_place, route_of};

use crate::request::routes::{NoRoute, Place, Route};
use http::Method;
use matchit::Router;
use std::alloc::{AllocError, Global};

/// One more route.
fn with_route(
    mut router: Router<Place>,
    text: &str,
    place: Place,
) -> Result<Router<Place>, AllocError>
    ensures { IfOk result (λ r. r ≡ with_route text.now place router) }
{
    match router.insert(text, place) {
        Ok(()) => Ok(router),
        Err(_) => Err(AllocError),
    }
}

/// The router of the seven patterns.
fn desk_router(alloc: Global) -> Result<Router<Place>, AllocError>
    ensures { IfOk result (λ r. r ≡ desk_routes) }
{
    let router = with_route(Router::new(alloc), "/entries", Place::Entries)?;
    let router = with_route(router, "/programmes/{doc}", Place::Programme)?;
    let router = with_route(router, "/sectors", Place::Sectors)?;
    let router = with_route(router, "/aircraft/{tail}/due/{day}", Place::Due)?;
    let router = with_route(router, "/aircraft/{tail}/limits/{day}", Place::Limits)?;
    let router = with_route(
        router,
        "/aircraft/{tail}/forecast/{day}/{days}/{minutes}/{cycles}",
        Place::Forecast,
    )?;
    with_route(router, "/aircraft/{tail}/life", Place::Life)
}

/// The place that a path names.
fn place_at(alloc: Global, path: &str) -> Result<Option<Place>, AllocError>
    ensures { IfOk result (λ p. p ≡ place_of path.now) }
{
    let router = desk_router(alloc)?;
    match router.at(path) {
        Ok(found) => Ok(Some(*found.value)),
        Err(_) => Ok(None),
    }
}

/// The text up to the first slash.
fn before_slash(path: &str) -> &str
    ensures { result.now ≡ before_first (λ b. b == 47) path.now }
{
    match path.split_once('/') {
        Some((before, _)) => before,
        None => path,
    }
}

/// The text behind the first slash.
fn after_slash(path: &str) -> &str
    ensures { result.now ≡ after_first (λ b. b == 47) path.now }
{
    match path.split_once('/') {
        Some((_, after)) => after,
        None => "",
    }
}

/// Part `n` of a path, counted from 0: what stands between its slashes.
fn part(path: &str, n: usize) -> &str
    ensures { result.now ≡ part n path.now }
{
    let mut rest = path;
    let mut left = n;
    while left > 0 {
        rest = after_slash(rest);
        left -= 1;
    }
    before_slash(rest)
}

/// The path of a target: up to the first question mark.
fn path_of(target: &str) -> &str
    ensures { result.now ≡ path_of target.now }
{
    match target.split_once('?') {
        Some((path, _)) => path,
        None => target,
    }
}

/// What a path of a place asks for.
fn at_place(place: Place, path: &str) -> Route<'_>
    ensures { asked result ≡ at_place place path.now }
{
    match place {
        Place::Entries => Route::Entries,
        Place::Programme => Route::Programme { doc: part(path, 2) },
        Place::Sectors => Route::Sectors,
        Place::Due => Route::Due {
            tail: part(path, 2),
            day: part(path, 4),
        },
        Place::Limits => Route::Limits {
            tail: part(path, 2),
            day: part(path, 4),
        },
        Place::Forecast => Route::Forecast {
            tail: part(path, 2),
            day: part(path, 4),
            days: part(path, 5),
            minutes: part(path, 6),
            cycles: part(path, 7),
        },
        Place::Life => Route::Life {
            tail: part(path, 2),
        },
    }
}

/// What a method and a target ask for.
///
/// # Errors
///
/// `NotFound` where no pattern is like the path, `WrongMethod` where the place takes the other method, and `Memory`
/// where the allocator has none.
pub fn route<'a>(alloc: Global, method: &Method, target: &'a str) -> Result<Route<'a>, NoRoute>
    ensures ok { IfOk result (λ r. route_of method.now target.now ≡ Ok (asked r)) }
    ensures err { IfErr result (λ e. e ≢ NoRoute.Memory → route_of method.now target.now ≡ Err e) }
{
    let path = path_of(target);
    let Ok(place) = place_at(alloc, path) else {
        return Err(NoRoute::Memory);
    };
    let Some(place) = place else {
        return Err(NoRoute::NotFound);
    };
    if method.as_str() == place.method() {
        Ok(at_place(place, path))
    } else {
        let allow_post = place.takes_post();
        Err(NoRoute::WrongMethod { allow_post })
    }
}
