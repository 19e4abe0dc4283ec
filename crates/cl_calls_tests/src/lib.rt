//! Tests of what only calls can ask of constraint books, sources, searches, registries and lineages: growths that are refused,
//! values that belong elsewhere, posts out of their round, counts of failures, what stands above a class, printed faults.
//! There is nothing here but tests. What a whole run shows stands in rows of data instead.
//!
//! With ample memory nothing is refused. `rt try --test --fail-alloc N` refuses the Nth growth of each test, which then
//! prints whose it was; a test that is refused one in what it makes beforehand ends there, with an error.
#![tactic(auto)]

#[cfg(test)]
mod access;
#[cfg(test)]
mod books;
#[cfg(test)]
mod faults;
#[cfg(test)]
mod given;
#[cfg(test)]
mod lineages;
#[cfg(test)]
mod links;
#[cfg(test)]
mod rounds;
#[cfg(test)]
mod sources;
#[cfg(test)]
mod strangers;
