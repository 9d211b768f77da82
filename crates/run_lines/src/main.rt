// boardtime on a stored run: long, empty and binary lines, and a line with CR.
#![tactic(auto)]

fn main(rt: HostRuntime) {
    program::serve(&mut rt.stdin(), &mut rt.stdout(), &mut rt.stderr());
}
