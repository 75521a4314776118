use std::io;

// Prints bytes in upper-case hex digits, 32 bytes a line.
pub(crate) fn print_hex(rt: &HostRuntime, bytes: &[u8]) -> io::Result<()> {
    for row in bytes.chunks(32) {
        for byte in row {
            print!(rt; "{byte:02X}")?;
        }
        println!(rt)?;
    }
    Ok(())
}
