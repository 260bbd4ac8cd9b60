// Theorems on the register of scope_tree's definitions and on the step of the eight tree calls: what a use imported with its chain,
// refusals exactly when, a model in the original's shape. There is no code here.

#![tactic(auto)]
