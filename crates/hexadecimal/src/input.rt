// Where programs that read lines of hexadecimal bytes have their text from.
use std::io::Read;
use std::rt::Files;
use std::{fs, io};

// The bytes of the file that is named, or of standard input.
pub fn read_input(
    rt: &(impl Files + Input + AllocGlobal),
    file: Option<&str>,
) -> io::Result<Vec<u8>> {
    match file {
        Some(path) => fs::read(rt, path),
        None => {
            let mut input = Vec::new(rt.alloc());
            rt.reader().read_to_end(&mut input)?;
            Ok(input)
        }
    }
}
