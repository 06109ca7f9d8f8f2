// A reader of a net: its own line, and the net that it reads.
// The readers are the pins of gates; the line says which pin of which gate.
use signal::line::Line;

#[derive(Clone, Copy)]
pub struct Reader {
    pub line: Line,
    pub net: u16,
}
