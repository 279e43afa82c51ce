// Messages: the algebra of keys, data, tags, pairs and encryptions, and the table that numbers them.
#![tactic(auto)]

mod carried;
mod enter;
mod form;
mod lookup;
mod resolve;
mod same;
mod sorts;
pub mod stored;
pub mod table;
