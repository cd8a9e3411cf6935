// The edge cases that are proved together, as rows of one statement. No code.
#![tactic(auto)]
