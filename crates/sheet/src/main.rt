// Reads a log from standard input and writes its sheet to standard output. A read or a write that fails ends the program with
// its error, and no other error comes.
#![tactic(auto)]

use sheet_text::Sheet;
use std::io;

fn main(rt: HostRuntime) -> io::Result<()> {
    let mut bytes = [0u8; Sheet::MOST_BYTES + 1];
    let n = filling::read_full(&mut rt.reader(), &mut bytes)?;
    let sheet = sheet_text::sheet_text(&bytes[..n]);
    let length = sheet.length;
    let text = sheet.text;
    rt.write_all(&text[..length])
}
