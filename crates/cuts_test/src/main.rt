// Reads every cut of the small worked file of document 01, from 0 bytes on to all of it. A line is printed for each: how many bytes, the number of `parse`,
// for 10 the bytes of text expected and found, for 0 the counts of files, functions, source locations, ranges and bytes of text.
#![tactic(auto)]

use symcache::{ErrorKind, SymCache};

fn print_after_space(rt: &impl Print, n: u64) {
    let _ = print!(rt; " {n}");
}

fn print_error(rt: &impl Print, kind: ErrorKind) {
    print_after_space(rt, u64::from(kind.number()));
    let ErrorKind::UnexpectedStringBytes { expected, found } = kind else {
        return;
    };
    print_after_space(rt, expected as u64);
    print_after_space(rt, found as u64);
}

fn print_cache(rt: &impl Print, c: SymCache) {
    print_after_space(rt, 0);
    print_after_space(rt, u64::from(c.num_files));
    print_after_space(rt, u64::from(c.num_functions));
    print_after_space(rt, u64::from(c.num_source_locations));
    print_after_space(rt, u64::from(c.num_ranges));
    print_after_space(rt, u64::from(c.string_bytes));
}

fn print_parsed(rt: &impl Print, s: &[u8]) {
    match symcache::parse(s) {
        Ok(c) => print_cache(rt, c),
        Err(kind) => print_error(rt, kind),
    }
}

fn print_cuts(rt: &impl Print, s: &[u8]) {
    for n in 0..=s.len() {
        let _ = print!(rt; "{n}");
        print_parsed(rt, &s[..n]);
        let _ = println!(rt);
    }
}

fn main(rt: HostRuntime) {
    let mut file = [0u8; 512];
    let used = replay::read_file(&rt, "worked.sym", &mut file);
    print_cuts(&rt, &file[..used]);
}
