// The search: a call judges rows from its place on, as many as its allowance, and answers what it met. One definition of document 01 says
// what a call owes (`SearchCall`), and one theorem what any list of calls does (`ThirdDemand`).
#![tactic(auto)]

pub mod call;
