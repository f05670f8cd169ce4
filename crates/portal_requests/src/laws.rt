//! Laws of requests. Each is the contract of a function that does nothing.

ghost use Rattle.portal_requests.specs.LeastRefusal.{LeastRefusal};
ghost use Rattle.portal_requests.specs.NamedByPath.{NamedByPath};

/// What the desk hears of a message names a matter exactly if the message's path does: `/matters/` and the six digits
/// of the matter, and then the end or `/`.
pub fn named_by_path()
    ensures { NamedByPath }
{}

/// Before a message becomes a request it can be refused for no route, another method, no caller or a bad field. If
/// several apply, the one with the least number is returned; if there is a request, none applies.
pub fn least_refusal()
    ensures { LeastRefusal }
{}
