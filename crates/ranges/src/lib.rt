// What a step gives to the curves lies in their ranges: laws. No code.
#![tactic(auto)]
