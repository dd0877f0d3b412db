// Prints the walk over the file `volume` of the working folder, from place 0.
// The stored volume has twelve entries, one with a monomial too many in an answer, and more behind it; it and the stored output were made by
// the independent implementation in `reference/`. `check_files` has other files.

#![tactic(auto)]

fn main(rt: HostRuntime) {
    let mut output = rt.stdout();
    walk_file::print_walk(&rt, &mut output, b"volume");
}
