// Reads lines from standard input and writes one line for each to standard output. Its stored run is document 01's whole run.
#![tactic(auto)]

fn main(rt: HostRuntime) {
    program::serve(&mut rt.stdin(), &mut rt.stdout(), &mut rt.stderr());
}
