// No code: the sweep over places, as definitions and laws.
#![tactic(auto)]
