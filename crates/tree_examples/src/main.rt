// Runs the tree layer on the examples of paper 01 and on borders, and writes a line for each: its
// name, what it is given, and what comes back. What must be written is the file stdout beside src/.
#![tactic(auto)]

mod heads;
mod lookups;
mod positions;

fn main(rt: HostRuntime) {
    positions::ladders(&rt);
    positions::roots(&rt);
    positions::frontiers(&rt);
    positions::right_paths(&rt);
    positions::asked(&rt);
    heads::of_fourteen(&rt);
    heads::nodes(&rt);
    lookups::in_one_tree(&rt);
    lookups::other_leaves(&rt);
    lookups::depths(&rt);
}
