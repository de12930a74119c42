// No code: what becomes of slopes, curves and heights where every height is negated, as definitions and laws.
#![tactic(auto)]
