// The program: reads survey text on standard input and writes contour text on standard output.
#![tactic(auto)]

fn main(rt: HostRuntime) {
    console::run(&rt, 0);
}
