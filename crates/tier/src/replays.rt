//! The replay of a route.
ghost use Rattle.std.specs.Prelude.{◌≡◌, ◌^◌, ◌≤◌, unsigned_abs};
ghost use Rattle.tier.specs.Answers.{Standing};
ghost use Rattle.tier.specs.Routes.{plus, reduced_cost};
ghost use Rattle.tier.specs.Replays.{Went};

use super::Tier;

/// The reduced cost of a route: begins at start, reaches the stops in order, finishes, and adds up
/// all charges. `None` if something on the way is barred: the route is not admitted.
pub fn replay<T: Tier>(tier: &T, route: &[usize]) -> Option<i64>
    ensures { result ≡ reduced_cost (T.meaning.answers (T.value tier.now)) route.now }
{
    let (state, last, cost) = go(tier, route)?;
    go_home(tier, state, last, cost)
}

// The state at the last stop of the route, that stop, and the charges so far; or barred.
fn go<T: Tier>(tier: &T, route: &[usize]) -> Option<(T::State, usize, i64)>
    ensures { Went (T.meaning.answers (T.value tier.now)) route.now result }
{
    // A loop: that the cost fits a word is its invariant.
    let mut state = tier.start();
    let mut from = 0;
    let mut cost = 0i64;
    for to in route {
        let (next, charge) = tier.reach(state, from, *to)?;
        state = next;
        from = *to;
        cost += charge;
    }
    Some((state, from, cost))
}

// The cost with the charge for going home.
fn go_home<T: Tier>(tier: &T, state: T::State, from: usize, cost: i64) -> Option<i64>
    requires stands { Standing (T.meaning.answers (T.value tier.now)) from state }
    requires small { unsigned_abs cost ≤ 2 ^ 50 }
    ensures { result ≡ plus cost ((T.meaning.answers (T.value tier.now)).finish state from) }
{
    let home = tier.finish(state, from)?;
    Some(cost + home)
}
