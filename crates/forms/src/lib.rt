// No code: a text as lines one after another.
#![tactic(auto)]
