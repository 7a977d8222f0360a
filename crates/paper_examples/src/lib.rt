// 01, "Proved table of small examples": P1 to P12, shown against the definitions by one theorem over their list (specs/Table.antt). There is no
// code here.
#![tactic(auto)]
