// The report program: reads survey text on standard input and writes the report of its served ground on standard output.
#![tactic(auto)]

fn main(rt: HostRuntime) {
    console::run_report(&rt, 0);
}
