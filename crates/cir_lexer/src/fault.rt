use cir_token::LexCause;

/// Why there are no tokens.
#[derive(Clone, Copy)]
pub enum LexFault {
    /// The first fault in the order of bytes.
    At { cause: LexCause, offset: u32 },
    OutOfMemory,
}
