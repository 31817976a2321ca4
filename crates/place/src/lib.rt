// Places in the table of SPIs, which INTIDs a table has, and what a creation answers.
#![tactic(auto)]

pub mod place;
