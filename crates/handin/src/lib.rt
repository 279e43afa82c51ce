// Hand-ins: the calls that records stand for, and making them on a book.
#![tactic(auto)]

pub mod call;
mod kind;
mod making;
#[cfg(test)]
mod tests;
