// No code: what is promised of the whole library, as definitions and laws.
#![tactic(auto)]
