// The report program over fatter triangles: the same texts in and out, counted over the other kind of mesh.
#![tactic(auto)]

fn main(rt: HostRuntime) {
    console::run_report(&rt, 1);
}
