// No code: sides swapped until none may be, as definitions and laws.
#![tactic(auto)]
