// Worked examples, computed from the definitions: the board's twelve, which calls list and which name what, the corners of widths,
// of the table's end, of claims and of releases. There is no code here.
#![tactic(auto)]
