// No code: which triangles that are handed in are accepted, and that they are the meshes of the survey.
#![tactic(auto)]
