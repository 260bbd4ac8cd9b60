// The corner cases C1 to C12 (docs/EVIDENCE.md) as one table under one theorem: specs/CornerCases.antt. There is no code here.

#![tactic(auto)]
