// Checks the file on standard input, of up to 65,536 bytes, and prints its verdict in one line: `accepted` with version, frames and opening,
// `refused` with the refusal's number and place, or `long` where there are more bytes.
#![tactic(auto)]

use check_file::check_file;
use std::io;
use std::io::Read;

fn print_verdict(rt: &impl Print, file: &[u8]) -> io::Result<()> {
    match check_file(file) {
        Ok(found) => {
            let header = found.header;
            println!(rt;
                "accepted {} {} {}",
                header.version, header.frame_count, header.initial_count
            )
        }
        Err(refusal) => println!(rt; "{refusal}"),
    }
}

fn main(rt: HostRuntime) -> io::Result<()> {
    let mut file = Vec::new(rt.alloc());
    rt.stdin().take(65537).read_to_end(&mut file)?;
    if 65536 < file.len() {
        return println!(rt; "long");
    }
    print_verdict(&rt, &file)
}
