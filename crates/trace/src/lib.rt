// The lines of a level over any sound mesh: how they run, and that each crossed side is met once. There is no code here.
#![tactic(auto)]
