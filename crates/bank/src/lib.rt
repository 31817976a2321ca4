// The banks of registers: what each shows of a record, which written fields act, whether a write lists, and what is refused beyond the table.
#![tactic(auto)]

pub mod bank;
