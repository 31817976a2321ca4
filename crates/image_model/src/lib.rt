// The definition of every call on a lent image: what is seen of it. The code in here only puts answers into the form that C gets.
#![tactic(auto)]

pub mod told;
