// No code: the hull of a survey, and what makes a list of triangles a mesh of it.
#![tactic(auto)]
