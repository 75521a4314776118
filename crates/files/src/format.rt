// How the bytes of a map file are read: a switch file of bits or of chip settings, or a range file.
#[derive(Clone, Copy)]
pub enum Format {
    Bits,
    Settings,
    Ranges,
}
