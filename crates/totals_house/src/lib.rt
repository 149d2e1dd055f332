// The totals of a house call: beta after beta, each by the factors that the table has for its couplings. So no list of all factors is made, and each
// configuration reads its factors as it reads lent ones.
#![tactic(auto)]

mod totals;

pub use totals::total_house_job;
