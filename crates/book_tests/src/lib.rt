// Examples of calls of a book, run. The crate is apart from `book` so that its checks stay short.
#![tactic(auto)]

#[cfg(test)]
mod arrows;
#[cfg(test)]
mod assumptions;
#[cfg(test)]
mod limits;
#[cfg(test)]
mod start;
#[cfg(test)]
mod strands;
