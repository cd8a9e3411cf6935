// What loops do: turns in order, and a list whose elements each take their own rule. No code.
#![tactic(auto)]
