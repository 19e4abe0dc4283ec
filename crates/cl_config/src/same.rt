//! Whether two lists of requests are the same.

ghost use Rattle.std.specs.Prelude.{◌≡◌};
ghost use Rattle.cl_names.specs.Truth.{Decides};

use cl_model::Request;

/// Whether two lists have the same requests in the same order. It stops at the first that differ.
pub fn are_same(requests: &[Request], others: &[Request]) -> bool
    ensures { Decides result (requests.now ≡ others.now) }
{
    if requests.len() != others.len() {
        return false;
    }
    for (request, other) in requests.iter().zip(others) {
        if !request.is_same(other) {
            return false;
        }
    }
    true
}
