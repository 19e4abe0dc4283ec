//! Laws of the search rule, each the contract of a function that does nothing.
ghost use Rattle.cl_delegation.specs.Routes.{AsksFew, AsksOnce};

/// A search asks no loader twice, and so no more than there are, however many ways lead to one.
pub fn search_asks_once()
    ensures once { AsksOnce }
    ensures few { AsksFew }
{}
