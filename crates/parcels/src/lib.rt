// No code: the parts into which a level cuts the triangles of a mesh, and the ground that is served.
#![tactic(auto)]
