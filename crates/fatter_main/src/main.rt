// The program over fatter triangles: the same texts in and out, drawn over the other kind of mesh.
#![tactic(auto)]

fn main(rt: HostRuntime) {
    console::run(&rt, 1);
}
