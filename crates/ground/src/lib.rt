// No code: the ground that a mesh covers, and the segments that levels draw on it.
#![tactic(auto)]
