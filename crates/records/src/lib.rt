// records: the tables that a call is lent, and how a record is read and stored; a cascade gets them by value. Past a
// table a read finds none and a store does nothing. Elsewhere `listed` and `exception` index a table, each within its
// range, and the entry points, which take a name's rest by the table's size.
#![tactic(auto)]

pub mod reading;
pub mod tables;
