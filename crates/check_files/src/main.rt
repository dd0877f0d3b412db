// Prints the walks over the files of the working folder that try what `walk` reads: none, a directory, an empty file, 65,536 and 65,537 bytes.
// The file of 65,536 bytes is a volume whose every entry passes, and that of 65,537 the same with one byte more.

#![tactic(auto)]

fn main(rt: HostRuntime) {
    let mut output = rt.stdout();
    walk_file::print_walk(&rt, &mut output, b"missing");
    walk_file::print_walk(&rt, &mut output, b"directory");
    walk_file::print_walk(&rt, &mut output, b"empty");
    walk_file::print_walk(&rt, &mut output, b"bytes_65536");
    walk_file::print_walk(&rt, &mut output, b"bytes_65537");
}
