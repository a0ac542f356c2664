//! Which of two routes is the cheapest.
ghost use Rattle.std.specs.Prelude.{◌≡◌};
ghost use Rattle.audit.specs.Cheapest.{cheapest_of};

/// One of two routes.
#[derive(Clone, Copy)]
pub(crate) enum Route {
    First,
    Second,
}

/// By their reduced costs, `None` where a route is not admitted; the first on ties.
// By cases: `None`, a route that is not admitted, would be the least of two `Option`s.
pub(crate) fn cheaper_of(first: Option<i64>, second: Option<i64>) -> Option<Route>
    ensures { result ≡ cheapest_of first second }
{
    match (first, second) {
        (Some(a), Some(b)) => {
            if a <= b {
                Some(Route::First)
            } else {
                Some(Route::Second)
            }
        }
        (Some(_), None) => Some(Route::First),
        (None, Some(_)) => Some(Route::Second),
        (None, None) => None,
    }
}
